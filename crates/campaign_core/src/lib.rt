//! What a campaign shares with a run over one link: the campaign word of a case, when an answer is due, a flow that is
//! given its acknowledgements, and its row.
#![tactic(auto)]

mod cases;
mod due;
mod given_flow;
mod row;
mod sums;
mod tallied_flow;
mod tally;

pub use cases::{CaseAcks, Cases};
pub use due::is_due;
pub use given_flow::{BareFlow, GivenFlow};
pub use row::{Column, Row, Rows};
pub use sums::Sums;
pub use tallied_flow::TalliedFlow;
pub use tally::Tally;

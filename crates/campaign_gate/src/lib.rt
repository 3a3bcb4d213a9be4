//! Campaigns: each case has one flow, which makes its campaign word, and workers run many cases side by side.
#![tactic(auto)]

pub mod calls;
mod case_desk;
mod case_result;
mod case_run;
mod laws;
mod listed_flow;
mod queue;
mod share;
mod workers;

pub use calls::Books;
pub use campaign_core::{CaseAcks, Cases, Column, Row, Rows, Sums, Tally, is_due};
pub use laws::row_law;

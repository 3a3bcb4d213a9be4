//! The texts of modes: of folds, checked programs, live runs and campaigns, of the acknowledgements of flows, and of
//! the frames that install programs.
#![tactic(auto)]

mod ack_line;
mod acks;
mod check;
mod fold;
mod live;
mod programs;
mod table;
mod total;
mod wire;

pub use acks::{acks_text, put_own_acks};
pub use check::check_text;
pub use fold::fold_text;
pub use live::live_text;
pub use table::{Agents, own_table_text, soak_text, table_text};
pub use wire::wire_text;

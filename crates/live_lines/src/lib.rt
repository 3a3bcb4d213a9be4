//! The lines of a live text, each over the values that it shows: a run's books and the judge of its text both write
//! them.
#![tactic(auto)]

mod ends;
mod epochs;
mod flows;
mod labels;
mod parts;
mod places;
mod programs;
mod tickets;

pub use ends::{Counts, put_last_line};
pub use epochs::put_epoch_lines;
pub use flows::{put_flow_line, put_labelled_line};
pub use labels::{Label, Own};
pub use parts::{FlowPart, put_flow_body};
pub use places::{PlacedFaults, Places, place_at, program_places, put_fault_lines};
pub use programs::fields_of;
pub use tickets::{ReplyText, put_answered_line, report_count};

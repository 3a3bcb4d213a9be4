//! Runs of flows that share one link: round by round the flows send, hear and answer, each on its worker.
#![tactic(auto)]

mod books;
mod case_course;
mod flow;
mod flows;
mod laws;
mod run;
mod run_flow;

pub use books::{Givens, SharedRows, SharedRun};
pub use laws::{reports_law, settling_law};
pub use run::{shared, shared_rows};

//! The agent Reno: congestion control by RFC 5681, sections 3.1 and 3.2, over the reports of a flow.
#![tactic(auto)]

mod laws;
mod reno;

pub use laws::{calm_law, growth_law, loss_law, timeout_law, windows_law};
pub use reno::Reno;

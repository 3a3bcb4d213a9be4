//! The agent CUBIC: congestion control by RFC 9438, section 4, over the reports of a flow.
#![tactic(auto)]

mod cubic;
mod curve;
mod laws;
mod window;

pub use cubic::{Cubic, Growth};
pub use laws::{calm_law, growth_law, loss_law, timeout_law, windows_law};

//! Ranges of values: what the operations of the language can make of them, and which faults they can have.
#![tactic(auto)]

mod averages;
mod operations;
mod parts;
mod range;

pub use averages::average;
pub use operations::applied;
pub use range::{Range, Reach};

//! Which register code is accepted, and what is wrong with code that isn't.
#![tactic(auto)]

mod instruction;
mod tables;
mod verification;

pub use reg_code::{FIELDS, Rule};
pub use verification::{Rejected, verify};

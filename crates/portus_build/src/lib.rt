//! From a text of the datapath language to a program with code that means the same.
#![tactic(auto)]

mod building;
mod builtins;
pub mod calls;
mod fault;
mod refusal;
mod settled;

pub use building::build;
pub use builtins::builtin;
pub use fault::BuildFault;
pub use refusal::put_refusal;
pub use settled::{build_law, builtin_law, walk_law};

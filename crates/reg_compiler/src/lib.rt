//! Compiles programs of the datapath language to register code that means the same.
#![tactic(auto)]

mod block;
mod built;
mod command;
mod compiler;
mod count;
mod emission;
mod expression;
mod fault;
mod known;
mod laws;
mod line;
mod need;
mod registers;

pub use built::{Built, Builts};
pub use compiler::compile;
pub use count::instruction_count;
pub use fault::CompileFault;
pub use laws::known_law;
pub use need::greatest_need;

//! What a program can make of one acknowledgement, on ranges: cases of what its values can be, through terms,
//! conditions, commands and blocks.
#![tactic(auto)]

mod case;
mod cases;
mod commands;
mod condition;
mod listed;
mod reading;
mod steps;
mod term;
mod way;

pub use case::{Case, Kept, Sizes};
pub use cases::{put, put_all};
pub use commands::command;
pub use condition::refined;
pub use listed::{Listed, list};
pub use steps::blocks;
pub use term::{evaluated, range_of};
pub use way::Way;

//! The names of a program text and their meaning: a text's forms become a program, or are refused by the first rule of
//! the language that fails.
#![tactic(auto)]

mod assignment;
mod block;
mod command;
mod cut;
mod declaration;
mod declarations;
mod expression;
mod fault;
mod meaning;
mod names;
mod source;
mod target;
mod words;

pub use fault::{ScopeFault, What};
pub use source::scope;

//! Reads a program's text as its forms: numerals, words and lists, each with its place.
#![tactic(auto)]

mod atom;
mod fault;
mod open_list;
mod printing_law;
mod reading;
mod turn;

pub use fault::ParseFault;
pub use printing_law::print_tree_law;
pub use reading::parse;

//! Cuts a program's text into its tokens: parentheses and atoms, each with its place and its span.
#![tactic(auto)]

pub mod calls;
mod scan;
mod stray;
mod token;
mod within;

pub use token::{LexFault, Token, Tokens};

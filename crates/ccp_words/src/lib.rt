//! The tool's command line: words in, what they ask for out.
#![tactic(auto)]

mod mode;
mod words;

pub use mode::{Alone, DriveText, ToolMode};
pub use words::{Asked, Unasked, read_words};

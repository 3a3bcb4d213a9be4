//! A judge of printed live runs: whether a text is the live text of a scenario by the meaning of its programs' sources.
#![tactic(auto)]

mod forced_word;
mod fronts;
mod judge;
mod laws;
mod lines;
mod mark;
mod part;
mod read_marks;
mod verdict;

pub use judge::audit;
pub use laws::words_law;
pub use verdict::Verdict;

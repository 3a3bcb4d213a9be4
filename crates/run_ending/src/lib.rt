//! How a run ends: why its input is refused, and the line, the status and the outcome with which it ends.
#![tactic(auto)]

mod ending;
mod outcome;
mod refusal;
mod status;
mod stop;

pub use ending::{end, end_without, refuse};
pub use outcome::{ModeOutput, Outcome};
pub use refusal::{Limit, Refusal};
pub use status::{MEMORY_LINE, READ_LINE, Status, WORDS_LINE, WRITE_LINE};
pub use stop::Stop;

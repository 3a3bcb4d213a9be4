//! The reading of an input of `fold`, a program and acknowledgement lines below a separator, and the run of the
//! program's code over the acknowledgements.
#![tactic(auto)]

mod ack_line;
mod acks;
pub mod calls;
mod first_line;
mod fold;
mod folded;
mod folding;
mod front;
mod laws;
mod line_fault;
mod line_number;
mod line_values;
mod names;
mod separated;
mod single_lines;

pub use acks::{LineFault, acknowledgements};
pub use folded::Folded;
pub use laws::reading_laws;
pub use separated::{Separated, separate};

//! A machine that runs accepted register code, one acknowledgement after another, in words of its own. Slots of one
//! pool have the last report and the registers to which a fault goes back; the pool can have further slots for its
//! holder.
#![tactic(auto)]

mod acked;
mod flat;
mod general;
mod holder_calls;
mod kept;
mod laws;
mod machine;
mod operands;
mod places;
mod places_forms;
mod step;
mod steps;
mod store;
mod value_forms;
mod work;
mod working_words;

pub use acked::{Acked, BadRegister};
pub use laws::rest_determines_machine;
pub use machine::Machine;
pub use steps::Steps;

//! The frames with which an agent answers a datapath, Update and Change: they are written and read in place. The
//! byte rules of the frames of every kind are in this crate's definitions, and reading follows all of them. The public
//! modules have the readers and writers of parts, which the other kinds use as well.
#![tactic(auto)]

pub mod bodies;
mod decode;
pub mod encode;
mod fault;
pub mod fault_kind;
pub mod head;
pub mod install_parts;
mod laws;
pub mod outline;
pub mod parts;
pub mod values;

pub use decode::{ReplyHead, decode_fields, needed_bytes};
pub use encode::{encode_change, encode_update};
pub use fault::{BadKind, FrameFault, Short, Stop};
pub use install_parts::MOST_OPERATION;
pub use laws::{frame_laws, limits_hold};
pub use outline::{Counts, FrameKind, Instruction, Outline, Register, Version};

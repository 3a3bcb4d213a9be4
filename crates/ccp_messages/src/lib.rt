//! The frames between agent and datapath, of every kind and in both versions: a message is written as its one frame,
//! and read back from it.
#![tactic(auto)]

mod code_parts;
mod decoding;
mod encode;
mod encode_body;
mod encode_code;
mod fault;
mod laws;
mod message;
mod read_body;
mod read_code;
mod reason;
mod writing;

pub use decoding::decode;
pub use encode::encode_into;
pub use fault::DecodeFault;
pub use laws::frame_laws;
pub use message::Message;
pub use reason::Reason;
pub use reply_frames::{BadKind, Short, Version};

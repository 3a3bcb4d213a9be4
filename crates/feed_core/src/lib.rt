//! A datapath over a stream of frames: messages in, answers out, and the loop that reads and writes them.
#![tactic(auto)]

mod ack_frame;
mod answerer;
mod answering;
pub mod calls;
mod duplex;
mod ending;
mod feed;
mod flow;
mod frame_laws;
mod laws;
mod piece;
mod rest;
mod tables;
mod turn;

pub use answerer::Answerer;
pub use answering::{Unanswered, write_answer};
pub use duplex::{Duplex, Pair, hand_over};
pub use ending::FeedEnd;
pub use feed::Feed;
pub use flow::Flow;
pub use frame_laws::frames_law;
pub use laws::refusals_law;
pub use piece::Piece;
pub use rest::Rest;

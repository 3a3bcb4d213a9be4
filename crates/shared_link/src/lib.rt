//! One link of several flows.
#![tactic(auto)]

mod flow_answering;
mod flow_sending;
mod flow_traffic;
mod flows;
mod laws;
mod reserving;
mod round;
mod sending;
mod shared_case;
mod shared_link;
mod unrated_ack;

pub use round::{Ask, Counts};
pub use shared_case::{FlowLink, FlowLinks, SharedCase};
pub use shared_link::{AckLists, SharedLink};
pub use unrated_ack::{UnratedAck, UnratedAcks};

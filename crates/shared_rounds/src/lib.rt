//! The rounds of a run over one link, whatever its flows are: the link answers what they ask for, and each flow does its
//! part of a round on its worker.
#![tactic(auto)]

mod course;
mod dealt;
mod desk;
mod flows;
mod known_flow;
mod line;
mod order;
mod part_desk;
mod round_acks;
mod round_flow;
mod rounds;
mod worker;
mod worker_handle;

pub use course::Course;
pub use known_flow::{KnownFlow, KnownFlows};
pub use line::Bell;
pub use round_acks::RoundAcks;
pub use round_flow::{LockedFlow, RoundFlow};
pub use rounds::{RunEnd, run_by_workers};

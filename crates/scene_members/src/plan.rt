//! What one case of a scenario says: agent, trace, numbers, losses, marks, start, and its programs by number.
use agent_core::Kind;
use ccp_base::{Name, Sequence};
use link_model::Trace;

/// The numbers that every case gives.
#[derive(Clone, Copy)]
pub struct LinkNumbers {
    /// A packet's size, in bytes.
    pub mss: u32,
    /// How many packets may wait for their chances.
    pub queue: u32,
    /// From a packet's chance to its acknowledgement, in microseconds.
    pub delay_us: u64,
    /// How long the sender waits if every packet in flight is lost, in microseconds.
    pub timeout_us: u64,
    /// How many acknowledgements come.
    pub acks: u32,
}

/// How many reports may wait, and for how many acknowledgements an answer is late.
#[derive(Clone, Copy)]
pub struct AgentNumbers {
    pub slots: u32,
    pub lag: u32,
}

/// Which packets are lost whatever the queue, and from how many waiting packets on a packet is marked.
#[derive(Drop)]
pub struct LossPlan {
    pub losses: Sequence<u32>,
    pub mark: Option<u32>,
}

/// The numbers of a case's programs.
#[derive(Clone, Copy)]
pub struct Programs {
    /// The program of slow start.
    pub ss: u32,
    /// The program of congestion avoidance.
    pub ca: u32,
}

/// What a case says.
#[derive(Drop)]
pub struct Plan {
    pub name: Name,
    pub kind: Kind,
    pub trace: Trace,
    pub link_numbers: LinkNumbers,
    pub agent_numbers: AgentNumbers,
    pub loss_plan: LossPlan,
    /// When the flow starts, in microseconds of the link's time; 0 unless the scenario is read for flows over one link.
    pub start_us: u64,
    pub programs: Programs,
}

/// What cases say, in order.
pub type Plans = Sequence<Plan>;

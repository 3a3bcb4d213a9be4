//! The case of a shared link: its trace, queue and round length, and each flow's part of it.
use ccp_base::Sequence;
use link_model::Trace;

/// What a flow has of its own on a link that several flows share.
#[derive(Drop)]
pub struct FlowLink {
    /// A packet's size, in bytes.
    pub mss: u32,
    /// From a packet's chance to its acknowledgement, in microseconds.
    pub delay_us: u64,
    /// How long the sender waits if every packet in flight is lost, in microseconds.
    pub timeout_us: u64,
    /// The numbers of the flow's packets that are lost however full the queue is, each above the one before.
    pub losses: Sequence<u32>,
    /// How many packets of all flows must wait at least for the flow's next one to be marked. If `None`, none is
    /// marked.
    pub mark: Option<u32>,
    /// When it starts, in microseconds of the link's time: before it the flow sends nothing.
    pub start_us: u64,
}

/// What flows have on a shared link, in order.
pub type FlowLinks = Sequence<FlowLink>;

/// What a link of several flows is.
#[derive(Drop)]
pub struct SharedCase {
    /// When the link can send a packet.
    pub trace: Trace,
    /// How many packets of all flows may wait for their chances.
    pub queue: u32,
    /// The length of a round, in microseconds.
    pub quantum_us: u64,
    pub flows: FlowLinks,
}

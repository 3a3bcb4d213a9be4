//! The account of a flow by its programs' sources, with each fault's place in the source.
use ccp_base::{FaultKind, Place, Sequence};
use flow_core::{EpochLine, TicketLine};
use report_lines::End;

/// A fault of a flow, with its place in the source.
#[derive(Clone, Copy)]
pub struct SourceFault {
    pub program: u32,
    pub epoch: u32,
    /// The number of the faulting acknowledgement among those of its flow, from 0.
    pub at: u64,
    pub kind: FaultKind,
    /// The place of the operation that had no result.
    pub place: Place,
    /// The time of the faulting acknowledgement, in microseconds.
    pub time: u64,
    /// The congestion window, in bytes, which the fault leaves as it was.
    pub cwnd: u64,
}

/// The result of a flow's history by the meaning of its programs' sources.
#[derive(Drop)]
pub struct FlowAccount {
    /// The epochs in order, the opening one first.
    pub epochs: Sequence<EpochLine>,
    /// The faults in order.
    pub faults: Sequence<SourceFault>,
    /// The tickets in order. A ticket with a fault has the index 0, since a place has no index.
    pub tickets: Sequence<TicketLine>,
    /// How many reports were asked for while there was no room.
    pub held: u32,
    /// The number of the last epoch's program.
    pub program: u32,
    /// How the flow stands at its end.
    pub end: End,
}

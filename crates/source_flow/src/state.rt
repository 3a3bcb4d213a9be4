//! The state of a flow by its programs' sources: the epoch that runs, what waits, and the ticket that is out.
use crate::flow_account::SourceFault;
use agent_core::Agent;
use ccp_base::{Notice, Report, RunningEpoch, Sequence};
use flow_core::{EpochLine, Issued, TicketLine};
use link_model::Link;
use portus_core::Env;
use std::collections::VecDeque;

/// The epoch that runs, and how its program stands.
#[derive(Drop)]
pub(crate) struct Present {
    pub(crate) epoch: RunningEpoch,
    pub(crate) env: Env,
    /// What a run overwrites; after a report it has the report's fields.
    pub(crate) spare: Env,
    /// Whether a fault stopped it.
    pub(crate) is_stopped: bool,
}

/// All that is kept of a flow.
#[derive(Drop)]
pub(crate) struct State {
    pub(crate) link: Link,
    pub(crate) present: Present,
    /// How many acknowledgements are in.
    pub(crate) acks: u32,
    /// The time of the last acknowledgement, in microseconds, 0 if there is none.
    pub(crate) time: u64,
    /// The reports that wait, the oldest first.
    pub(crate) waiting: VecDeque<Report>,
    /// The fault notice that is untold.
    pub(crate) untold: Option<Notice>,
    pub(crate) agent: Agent,
    pub(crate) out: Option<Issued>,
    /// The tickets that were answered.
    pub(crate) tickets: Sequence<TicketLine>,
    /// The epochs, the present one last.
    pub(crate) epochs: Sequence<EpochLine>,
    pub(crate) faults: Sequence<SourceFault>,
    /// How many reports were asked for while there was no room.
    pub(crate) held: u32,
}

//! What workers do at their desks, as events, and what an acknowledgement means for a datapath worker.
use agent_core::Ticket;
use ccp_base::Point;

/// The outcome of an acknowledgement of a flow, for a datapath worker.
#[derive(Clone, Copy, PartialEq, Eq)]
pub enum Heard {
    /// It is in, and nothing new waits for an agent.
    Quiet,
    /// It is in, and a report waits.
    Reported,
    /// It is in, and a fault waits.
    Faulted,
    /// There was none: all acknowledgements of the flow are in.
    Ended,
}

/// What a worker did.
#[derive(Clone, Copy, PartialEq, Eq)]
pub enum Event {
    /// Passed a point of the gate, with the worker's number and the flow's.
    Passed(u32, Point, u32),
    /// Took a flow's lock.
    Locked(u32),
    /// Gave a flow's lock back.
    Unlocked(u32),
    /// Asked a flow for its next acknowledgement, by a worker.
    Acked(u32, u32, Heard),
    /// Sent an agent worker a flow's number.
    Nudged(u32),
    /// Received a flow's number, or that no more come.
    Received(Option<u32>),
    /// Took a flow's next ticket, if there is one.
    Took(u32, Option<Ticket>),
    /// Settled the answer to a ticket of a flow.
    Settled(u32, Ticket),
    /// Built the text of a flow's step, and whether there is an entry of it.
    Built(u32, u32, bool),
    /// Put the entry of a step into a flow's library, and whether it was the next one.
    Installed(u32, u32, bool),
    /// Changed a flow to its library's next program, and whether there was one.
    Changed(u32, bool),
}

/// What a worker did with a case between two points of the gate: a case of a campaign, or a flow's part of a round over
/// one link.
#[derive(Clone, Copy)]
pub enum CaseEvent {
    /// Passed a point of the gate, with the worker's number and the case's.
    Passed(u32, Point, u32),
    /// Ran a case. If memory ran out in it, this is the worker's last event.
    Ran(u32),
}

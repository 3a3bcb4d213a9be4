//! The gate that workers pass at points of their work, so that a test can see and hold them.
/// A point of a worker's work at which it passes a gate.
#[derive(Clone, Copy, PartialEq, Eq)]
pub enum Point {
    /// Before an acknowledgement, without the flow's lock.
    BeforeAck,
    /// At an acknowledgement, with the flow's lock held.
    InAck,
    /// After an acknowledgement, without the flow's lock.
    AfterAck,
    /// After a take, whether or not a report or notice waited, without the flow's lock.
    AfterTake,
    /// After an answer was settled, without the flow's lock.
    AfterSettle,
    /// Before a case of a campaign.
    InCase,
    /// After a case of a campaign.
    AfterCase,
}

/// What workers pass, so that a test can see and hold them.
pub trait Gate {
    /// May wait, and answers nothing. The number is that of the flow, or at `InCase` and `AfterCase` that of
    /// the case.
    fn pass(&self, worker: u32, point: Point, number: u32);
}

/// The gate that holds no worker.
#[derive(Clone, Copy)]
pub struct OpenGate;

impl Gate for OpenGate {
    fn pass(&self, _worker: u32, _point: Point, _number: u32) {}
}

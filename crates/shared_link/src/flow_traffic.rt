//! What is under way of one flow on a shared link, and its counts of packets.
ghost use Rattle.std.specs.Prelude.{◌≡◌, ◌+◌, ◌-◌, ◌≤◌};

use crate::unrated_ack::UnratedAck;
use circular_buffer::HeapCircularBuffer;
use link_model::{Arrival, Past};

/// What is under way of a flow.
#[derive(Drop)]
pub(crate) struct FlowTraffic {
    /// The time of its last acknowledgement, in microseconds.
    pub(crate) time: u64,
    /// What its later acknowledgements take from earlier ones.
    pub(crate) past: Past,
    /// Its packets in flight that aren't lost, in the order of their numbers.
    pub(crate) flight: HeapCircularBuffer<Arrival>,
    // Numbers that change together don't stand side by side: the compiler would load and change two at once, which takes
    // more instructions than one after the other.
    /// How many lost packets have higher numbers than all of these.
    pub(crate) lost: u64,
    /// How many of its packets are in flight, with the lost ones.
    pub(crate) in_flight: u64,
    /// When the first of these lost packets was sent, in microseconds; 0 if there are none.
    pub(crate) since: u64,
    /// How many were acknowledged.
    pub(crate) acked: u64,
    /// How many packets it may have in flight in the present round.
    pub(crate) allowance: u64,
    /// How many of its packets were sent.
    pub(crate) sent: u64,
    /// How many listed losses are known to have numbers below the next packet's.
    pub(crate) passed: usize,
    /// Its acknowledgements in the present round.
    pub(crate) acks: Vec<UnratedAck>,
}

impl FlowTraffic {
    /// How many packets left the flight as lost.
    pub(crate) fn gone(&self) -> u64
        requires { self.now.acked + self.now.in_flight ≤ self.now.sent }
        ensures { result ≡ self.now.sent - self.now.acked - self.now.in_flight }
    {
        self.sent - self.acked - self.in_flight
    }
}

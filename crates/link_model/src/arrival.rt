//! A packet in flight that isn't lost, with the time at which its acknowledgement arrives.
/// A packet in flight that isn't lost. It is acknowledged when it arrives.
#[derive(Clone, Copy)]
pub struct Arrival {
    /// How many lost packets have numbers between that of the arrival before and this one's.
    pub lost: u64,
    /// When it was sent, in microseconds.
    pub sent_at: u64,
    /// When its acknowledgement arrives, in microseconds.
    pub at: u64,
    /// Whether the queue marked it.
    pub marked: bool,
}

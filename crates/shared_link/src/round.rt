//! What a flow asks for in a round, and the counts of all flows' packets.
/// What a flow asks for in a round.
#[derive(Clone, Copy)]
pub struct Ask {
    /// Its window, in bytes.
    pub window: u64,
    /// How many acknowledgements it has left. With none left it sends nothing.
    pub left: u32,
}

/// How many rounds a link had, and what became of the packets of all flows.
#[derive(Clone, Copy)]
pub struct Counts {
    /// How many rounds there were.
    pub rounds: u64,
    /// How many packets were sent.
    pub sent: u64,
    /// How many were acknowledged.
    pub acked: u64,
    /// How many left the flight as lost. A lost packet that is still in flight isn't among them.
    pub lost: u64,
    /// How many are in flight, with the lost ones.
    pub inflight: u64,
}

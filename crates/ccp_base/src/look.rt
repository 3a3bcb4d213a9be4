//! Where a program keeps what agents read and write, and the role in which an agent starts it.
ghost use Rattle.std.specs.Prelude.{◌<◌};
ghost use Rattle.std.specs.Option.{ForSome};
ghost use Rattle.ccp_base.specs.Limits.{most_fields, most_controls};

/// Where a program keeps the fields and control variables that agents read and write: the number of each in
/// order of declaration, or None if the program doesn't declare it. Each number is below 64.
#[derive(Clone, Copy, PartialEq, Eq)]
pub struct Look {
    /// The field of the bytes acknowledged.
    pub acked: Option<u32>,
    /// The field of the packets lost.
    pub loss: Option<u32>,
    /// The field that isn't 0 after a timeout.
    pub timeout: Option<u32>,
    /// The field of the round-trip time, in microseconds.
    pub rtt: Option<u32>,
    /// The field of the bytes in flight.
    pub inflight: Option<u32>,
    /// The control variable of the window's cap, in bytes.
    pub cap: Option<u32>,
    /// The control variable of the segment's size, in bytes.
    pub mss: Option<u32>,
    /// The field of the packets that were marked.
    pub ecn: Option<u32>,
    ghost acked_below: { ForSome acked (λ n. n < most_fields) },
    ghost loss_below: { ForSome loss (λ n. n < most_fields) },
    ghost timeout_below: { ForSome timeout (λ n. n < most_fields) },
    ghost rtt_below: { ForSome rtt (λ n. n < most_fields) },
    ghost inflight_below: { ForSome inflight (λ n. n < most_fields) },
    ghost cap_below: { ForSome cap (λ n. n < most_controls) },
    ghost mss_below: { ForSome mss (λ n. n < most_controls) },
    ghost ecn_below: { ForSome ecn (λ n. n < most_fields) },
}

/// A program that an agent can start: its number, and where it keeps what the agent reads and writes.
#[derive(Clone, Copy, PartialEq, Eq)]
pub struct Role {
    pub number: u32,
    pub look: Look,
}

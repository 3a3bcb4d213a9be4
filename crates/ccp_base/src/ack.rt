//! The acknowledgement as the datapath sees it: fifteen primitives, by field and by number.
ghost use Rattle.std.specs.Prelude.{◌≡◌, ◌<◌, length, slice_index};
ghost use Rattle.ccp_base.specs.Acknowledgement.{bool_number, primitives, prim, flag_number, is_flag, ack_of};
ghost use Rattle.ccp_base.specs.Limits.{primitive_count};
ghost use Rattle.ccp_base.specs.Truth.{is_true};

use crate::sequence::Sequence;

/// How many primitives a program can read of an acknowledgement.
pub const PRIMITIVES: u32 = 15;

/// One acknowledgement, as the datapath sees it. Times are in microseconds and rates in bytes a second.
#[derive(Clone, Copy, PartialEq, Eq, Default)]
pub struct Ack {
    pub bytes_acked: u64,
    pub packets_acked: u64,
    pub bytes_misordered: u64,
    pub packets_misordered: u64,
    pub ecn_bytes: u64,
    pub ecn_packets: u64,
    pub lost_pkts_sample: u64,
    pub now: u64,
    pub bytes_in_flight: u64,
    pub packets_in_flight: u64,
    pub bytes_pending: u64,
    pub rate_incoming: u64,
    pub rate_outgoing: u64,
    pub rtt_sample_us: u64,
    pub was_timeout: bool,
}

/// A primitive by its number, from 0 to 14 in the order of the fields of `Ack`; a Bool is 0 or 1.
pub fn prim(ack: &Ack, number: u32) -> u64
    requires { number < primitive_count }
    ensures { result ≡ prim number ack.entry.now }
{
    match number {
        0 => ack.bytes_acked,
        1 => ack.packets_acked,
        2 => ack.bytes_misordered,
        3 => ack.packets_misordered,
        4 => ack.ecn_bytes,
        5 => ack.ecn_packets,
        6 => ack.lost_pkts_sample,
        7 => ack.now,
        8 => ack.bytes_in_flight,
        9 => ack.packets_in_flight,
        10 => ack.bytes_pending,
        11 => ack.rate_incoming,
        12 => ack.rate_outgoing,
        13 => ack.rtt_sample_us,
        _ => bool_number(ack.was_timeout),
    }
}

/// Whether a primitive, by its number, is a Bool: the last one is.
pub fn is_flag(number: u32) -> bool
    ensures { result ≡ is_flag number }
{
    number == PRIMITIVES - 1
}

/// The fifteen primitives of an acknowledgement in order; a Bool is 0 or 1. `ack_of` gives the acknowledgement
/// back.
pub fn primitives(ack: &Ack) -> [u64; 15]
    ensures numbers { result ≡ primitives ack.entry.now }
    ensures back { ack_of result ≡ ack.entry.now }
{
    [
        ack.bytes_acked,
        ack.packets_acked,
        ack.bytes_misordered,
        ack.packets_misordered,
        ack.ecn_bytes,
        ack.ecn_packets,
        ack.lost_pkts_sample,
        ack.now,
        ack.bytes_in_flight,
        ack.packets_in_flight,
        ack.bytes_pending,
        ack.rate_incoming,
        ack.rate_outgoing,
        ack.rtt_sample_us,
        bool_number(ack.was_timeout),
    ]
}

/// The acknowledgement with these fifteen primitives, in order; the last one is true if it isn't 0.
/// `primitives` gives the numbers back if the last one is 0 or 1.
pub fn ack_of(numbers: &[u64]) -> Ack
    requires { length numbers.now ≡ primitive_count }
    ensures ack { result ≡ ack_of numbers.now }
    ensures back { slice_index numbers.now flag_number < 2 → primitives (ack_of numbers.now) ≡ numbers.now }
{
    Ack {
        bytes_acked: numbers[0],
        packets_acked: numbers[1],
        bytes_misordered: numbers[2],
        packets_misordered: numbers[3],
        ecn_bytes: numbers[4],
        ecn_packets: numbers[5],
        lost_pkts_sample: numbers[6],
        now: numbers[7],
        bytes_in_flight: numbers[8],
        packets_in_flight: numbers[9],
        bytes_pending: numbers[10],
        rate_incoming: numbers[11],
        rate_outgoing: numbers[12],
        rtt_sample_us: numbers[13],
        was_timeout: is_true(numbers[14]),
    }
}

/// A Bool as a number: 1 if it is true, else 0.
pub fn bool_number(truth: bool) -> u64
    ensures { result ≡ bool_number truth }
{
    if truth { 1 } else { 0 }
}

/// A number as a Bool: true if it isn't 0.
pub fn is_true(number: u64) -> bool
    ensures { result ≡ is_true number }
{
    number != 0
}

/// Acknowledgements in the order in which they came.
pub type Acks = Sequence<Ack>;

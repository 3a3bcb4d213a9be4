//! Acknowledgements without their rates, and what the rates are computed from.
ghost use Rattle.std.specs.Prelude.{◌≡◌, ◌≤◌};
ghost use Rattle.ccp_base.specs.Limits.{most_segment_bytes, most_flight};
ghost use Rattle.link_model.specs.Counts.{most_packets};
ghost use Rattle.link_model.specs.Link.{past_in, arrival_ack_of, timeout_ack_of};
ghost use Rattle.link_model.specs.Rated.{without_rates};
ghost use Rattle.shared_link.specs.SharedRounds.{since_start};

use crate::shared_case::FlowLink;
use ccp_base::{Ack, Sequence};
use link_model::{Arrival, Past, arrival_ack, byte_rate, timeout_ack};
use std::marker::Model;

/// An acknowledgement without its two rates, and what they are computed from. The link writes it once, and a flow that
/// reads no rate reads it in place. The rates take a division each: the thread that gives the acknowledgement to its flow
/// computes them, if the flow reads one. Contracts see the whole acknowledgement.
#[derive(Drop)]
pub struct UnratedAck {
    /// The acknowledgement, both of whose rates are 0.
    unrated: Ack,
    /// When its flow starts, in microseconds.
    start_us: u64,
    /// How many packets of the flow were acknowledged so far.
    acked: u64,
    /// How many were sent so far.
    sent: u32,
    /// The size of each, in bytes.
    mss: u32,
}

/// Acknowledgements of a flow, in order.
pub type UnratedAcks = Sequence<UnratedAck>;

impl Model for UnratedAck {
    ghost use Rattle.ccp_base.specs.declared.ack.Ack.{Ack};
    ghost use Rattle.shared_link.specs.UnratedAcks.{rated_ack, IsUnrated};

    ghost Value = { Ack };

    ghost view = { rated_ack };

    ghost invariant = { IsUnrated };
}

impl UnratedAck {
    /// The acknowledgement of `arrival`, a packet of a flow, after `past`, if `stay` packets stay in flight and `acked`
    /// packets were acknowledged, this one counted, of `sent` that were sent.
    #[inline]
    pub(crate) fn of_arrival(
        link: &FlowLink,
        arrival: Arrival,
        past: Past,
        stay: u64,
        acked: u64,
        sent: u64,
    ) -> Self
        requires mss { link.now.mss ≤ most_segment_bytes }
        requires order { arrival.sent_at ≤ arrival.at }
        requires lost { arrival.lost ≤ most_flight }
        requires stay { stay ≤ most_flight }
        requires acked { acked ≤ most_packets }
        requires sent { sent ≤ most_packets }
        ensures { result ≡ since_start link.now.mss link.now.start_us acked sent
            (arrival_ack_of link.now.mss arrival.sent_at arrival.at arrival.marked past arrival.lost
            stay acked sent) }
    {
        UnratedAck {
            unrated: arrival_ack(link.mss, arrival, past, stay, acked, sent, false),
            start_us: link.start_us,
            acked,
            sent: sent as u32,
            mss: link.mss,
        }
    }

    /// The acknowledgement of a flow's timeout at `now`, in microseconds, after `past`, if all `lost` packets in flight
    /// are lost and `acked` packets were acknowledged of `sent` that were sent.
    pub(crate) fn of_timeout(
        link: &FlowLink,
        now: u64,
        past: Past,
        lost: u64,
        acked: u64,
        sent: u64,
    ) -> Self
        requires mss { link.now.mss ≤ most_segment_bytes }
        requires lost { lost ≤ most_flight }
        requires acked { acked ≤ most_packets }
        requires sent { sent ≤ most_packets }
        ensures { result ≡ since_start link.now.mss link.now.start_us acked sent
            (timeout_ack_of link.now.mss now past lost 0 acked sent) }
    {
        UnratedAck {
            unrated: timeout_ack(link.mss, now, past, lost, acked, sent, false),
            start_us: link.start_us,
            acked,
            sent: sent as u32,
            mss: link.mss,
        }
    }

    /// What the acknowledgements after this one take from it.
    #[inline]
    pub(crate) fn past_after(&self) -> Past
        ensures { result ≡ past_in self.entry.now }
    {
        Past::after(&self.unrated)
    }

    /// The acknowledgement without its rates: both are 0.
    #[inline(always)]
    pub fn without_rates(&self) -> &Ack
        ensures { result.now ≡ without_rates self.entry.now }
    {
        &self.unrated
    }

    /// The whole acknowledgement. Its rates are those over the time since its flow's start.
    #[inline]
    pub fn ack(&self) -> Ack
        ensures { result ≡ self.entry.now }
    {
        let unrated = self.unrated;
        let since = unrated.now.saturating_sub(self.start_us);
        Ack {
            rate_incoming: byte_rate(self.mss, self.acked, since),
            rate_outgoing: byte_rate(self.mss, u64::from(self.sent), since),
            ..unrated
        }
    }
}

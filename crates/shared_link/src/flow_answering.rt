//! How a flow's packets are acknowledged within a round, and when the flow times out.
ghost use Rattle.std.specs.Prelude.{◌≡◌, ℕ, ◌+◌, ◌-◌, ◌*◌, ◌<◌, ◌≤◌, min, max, suc, [], ◌∷◌, ◌++◌, length, slice_get, Some, None, vec_capacity, IfOk, OnOk, IsTrue, IsFalse};
ghost use Rattle.ccp_base.specs.Limits.{most_flight, most_rounds, most_quantum_us};
ghost use Rattle.link_model.specs.Counts.{most_packets};
ghost use Rattle.shared_link.specs.SharedLimits.{IsFlowWithin};
ghost use Rattle.shared_link.specs.Kept.{flow_under_way, answered_in, IsFlowKept, with_arrival, timed_out, answered_all};

use crate::flow_sending::PACKETS;
use crate::flow_traffic::FlowTraffic;
use crate::shared_case::FlowLink;
use crate::unrated_ack::{UnratedAck, UnratedAcks};
use ccp_base::NoMemory;
use circular_buffer::HeapCircularBuffer;
use link_model::Arrival;
use std::alloc::{AllocError, Global};

impl FlowTraffic {
    /// Begins a round, in which the flow may have `allowance` packets in flight: reserves memory for them, and for its
    /// acknowledgements, at most `left`. The flow gets at most one for each packet that is in flight or that it sends
    /// until `allowance` are.
    pub(crate) fn make_room(
        &mut self,
        alloc: Global,
        link: &FlowLink,
        allowance: u64,
        left: u32,
    ) -> Result<(), NoMemory>
        requires kept { IsFlowKept link.now self.old }
        requires allowance { allowance ≤ most_flight }
        requires acks { self.old.acks.items ≡ [] }
        ensures kept { IsFlowKept link.now self.new }
        ensures standing { flow_under_way self.new ≡ flow_under_way self.old }
        ensures in_flight { self.new.in_flight ≡ self.old.in_flight }
        ensures sent { self.new.sent ≡ self.old.sent }
        ensures acks { self.new.acks.items ≡ [] }
        ensures allowance { OnOk result (self.new.allowance ≡ allowance) }
        ensures room { OnOk result (min left (max self.new.in_flight allowance) ≤ vec_capacity self.new.acks) }
    {
        // for the contract alone: what holds of a flow depends on its listed losses
        let _ = link;
        make_places(&mut self.flight, allowance)?;
        let most = u64::from(left).min(self.in_flight.max(allowance)) as usize;
        if self.acks.capacity() < most {
            self.acks = Vec::with_capacity(alloc, most)?;
        }
        self.allowance = allowance;
        Ok(())
    }

    /// Keeps the memory of a list that the flow was given.
    pub(crate) fn keep_list(&mut self, link: &FlowLink, list: UnratedAcks)
        requires kept { IsFlowKept link.now self.old }
        ensures kept { IsFlowKept link.now self.new }
        ensures standing { flow_under_way self.new ≡ flow_under_way self.old }
        ensures in_flight { self.new.in_flight ≡ self.old.in_flight }
        ensures sent { self.new.sent ≡ self.old.sent }
        ensures acks { self.new.acks.items ≡ [] }
    {
        let _ = link;
        let mut acks = list.into_vec();
        acks.clear();
        self.acks = acks;
    }

    /// Takes the acknowledgements of the round out.
    pub(crate) fn take_acks(&mut self, alloc: Global, link: &FlowLink) -> UnratedAcks
        requires kept { IsFlowKept link.now self.old }
        ensures kept { IsFlowKept link.now self.new }
        ensures standing { flow_under_way self.new ≡ flow_under_way self.old }
        ensures in_flight { self.new.in_flight ≡ self.old.in_flight }
        ensures sent { self.new.sent ≡ self.old.sent }
        ensures acks { self.new.acks.items ≡ [] }
        ensures taken { result ≡ self.old.acks.items }
    {
        // for the contract alone: what holds of a flow depends on its listed losses
        let _ = link;
        UnratedAcks::from_vec(std::mem::replace(&mut self.acks, Vec::new(alloc)))
    }

    /// Acknowledges the packets that arrive before `end`, in microseconds, at most `left`. If the flow has an
    /// acknowledgement left then and every packet in flight is lost, it times out, if that is before `end`.
    pub(crate) fn answer(&mut self, link: &FlowLink, end: u64, left: u32)
        requires link { IsFlowWithin link.now }
        requires kept { IsFlowKept link.now self.old }
        requires end { end ≤ most_rounds * most_quantum_us }
        requires sent { self.old.sent ≤ most_packets }
        requires room { length self.old.acks.items + min left self.old.in_flight ≤ vec_capacity self.old.acks }
        ensures kept { IsFlowKept link.now self.new }
        ensures answered { answered_in self.new ≡ answered_all link.now end left (answered_in self.old) }
        ensures sent { self.new.sent ≡ self.old.sent }
    {
        let mut left = left;
        while left > 0 {
            if !self.answer_one(link, end, left) {
                return;
            }
            left -= 1;
        }
    }

    /// Gives the next acknowledgement before `end`, in microseconds, if there is one; `left` are left. Answers whether
    /// a packet arrived: if not, no more acknowledgements follow.
    fn answer_one(&mut self, link: &FlowLink, end: u64, left: u32) -> bool
        requires link { IsFlowWithin link.now }
        requires kept { IsFlowKept link.now self.old }
        requires end { end ≤ most_rounds * most_quantum_us }
        requires sent { self.old.sent ≤ most_packets }
        requires some { 0 < left }
        requires room { length self.old.acks.items + min left self.old.in_flight ≤ vec_capacity self.old.acks }
        ensures kept { IsFlowKept link.now self.new }
        ensures on { IsTrue result → (n : ℕ) → answered_all link.now end n (answered_in self.new)
            ≡ answered_all link.now end (suc n) (answered_in self.old) }
        ensures over { IsFalse result → (n : ℕ) → answered_in self.new
            ≡ answered_all link.now end (suc n) (answered_in self.old) }
        ensures sent { self.new.sent ≡ self.old.sent }
        ensures room { IsTrue result → length self.new.acks.items + min (left - 1) self.new.in_flight
            ≤ vec_capacity self.new.acks }
    {
        let Some(arrival) = self.flight.front().copied() else {
            self.time_out(link, end);
            return false;
        };
        if arrival.at >= end {
            return false;
        }
        self.acknowledge(link, arrival);
        true
    }

    /// Acknowledges `arrival`, the first packet in flight that isn't lost.
    fn acknowledge(&mut self, link: &FlowLink, arrival: Arrival)
        requires link { IsFlowWithin link.now }
        requires kept { IsFlowKept link.now self.old }
        requires first { slice_get self.old.flight.items 0 ≡ Some arrival }
        requires sent { self.old.sent ≤ most_packets }
        requires room { length self.old.acks.items < vec_capacity self.old.acks }
        ensures kept { IsFlowKept link.now self.new }
        ensures answered { answered_in self.new ≡ with_arrival link.now arrival (answered_in self.old) }
        ensures in_flight { self.new.in_flight < self.old.in_flight }
        ensures sent { self.new.sent ≡ self.old.sent }
        ensures room { vec_capacity self.new.acks ≡ vec_capacity self.old.acks }
    {
        let _ = self.flight.pop_front();
        self.in_flight -= arrival.lost + 1;
        self.acked += 1;
        self.time = arrival.at;
        let past = self.past;
        let ack = UnratedAck::of_arrival(
            link,
            arrival,
            past,
            self.in_flight,
            self.acked,
            self.sent,
        );
        self.past = ack.past_after();
        self.acks.push_reserved(ack);
    }

    /// Times out if there are packets in flight, all of which must be lost, and if the timeout is before `end`, in
    /// microseconds.
    fn time_out(&mut self, link: &FlowLink, end: u64)
        requires link { IsFlowWithin link.now }
        requires kept { IsFlowKept link.now self.old }
        requires none { self.old.flight.items ≡ [] }
        requires end { end ≤ most_rounds * most_quantum_us }
        requires sent { self.old.sent ≤ most_packets }
        requires room { 0 < self.old.in_flight → length self.old.acks.items < vec_capacity self.old.acks }
        ensures kept { IsFlowKept link.now self.new }
        ensures answered { answered_in self.new ≡ timed_out link.now end (answered_in self.old) }
        ensures sent { self.new.sent ≡ self.old.sent }
    {
        if self.lost == 0 {
            return;
        }
        let now = self.time.max(self.since) + link.timeout_us;
        if now >= end {
            return;
        }
        let lost = self.lost;
        self.time = now;
        self.lost = 0;
        self.since = 0;
        self.in_flight = 0;
        let ack = UnratedAck::of_timeout(link, now, self.past, lost, self.acked, self.sent);
        self.past = ack.past_after();
        self.acks.push_reserved(ack);
    }
}

/// Reserves memory for `most` packets in flight. A ring that is too short at least doubles, up to 4,096 places, so that
/// few rounds reserve any.
fn make_places(flight: &mut HeapCircularBuffer<Arrival>, most: u64) -> Result<(), AllocError>
    requires most { most ≤ most_flight }
    ensures items { flight.new.items ≡ flight.old.items }
    ensures capacity { flight.old.capacity ≤ flight.new.capacity }
    ensures places { OnOk result (most ≤ flight.new.capacity) }
{
    let places = flight.capacity();
    let most = most as usize;
    if places < most {
        flight.resize(most.max(2 * places).min(PACKETS))?;
    }
    Ok(())
}

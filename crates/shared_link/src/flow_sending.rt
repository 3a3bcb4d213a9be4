//! How a flow sends packets within a round: each is lost, or takes the queue's next chance.
ghost use Rattle.std.specs.Prelude.{◌≡◌, ℕ, ◌+◌, ◌^◌, ◌<◌, ◌≤◌, List, [], ◌∷◌, ◌++◌, length, if◌then◌else◌, ◌==◌, IfOk};
ghost use Rattle.ccp_base.specs.Limits.{most_flight, most_queue};
ghost use Rattle.link_model.specs.Chances.{chance_number};
ghost use Rattle.link_model.specs.Counts.{most_packets};
ghost use Rattle.link_model.specs.Link.{Lost, is_listed};
ghost use Rattle.shared_link.specs.declared.shared_case.FlowLink.{FlowLink};
ghost use Rattle.shared_link.specs.SharedLimits.{IsFlowWithin};
ghost use Rattle.shared_link.specs.SharedStanding.{flow_standing};
ghost use Rattle.shared_link.specs.Kept.{flow_under_way, IsFlowKept, with_one, fate_now, IsNextChance, served_now, IsSending};

use crate::flow_traffic::FlowTraffic;
use crate::sending::Sending;
use crate::shared_case::FlowLink;
use circular_buffer::HeapCircularBuffer;
use link_model::{Arrival, Past, Trace, is_at, is_marked, next_loss};
use std::alloc::{AllocError, Global};

/// How many packets in flight a new flow has memory for. A round that allows more reserves memory for more.
const FIRST_PLACES: usize = 64;

/// The most packets in flight.
pub(crate) const PACKETS: usize = 4096;

impl FlowTraffic {
    /// The traffic of a flow that has sent nothing. Reserves memory for 64 packets in flight.
    pub(crate) fn new(alloc: Global) -> Result<FlowTraffic, AllocError>
        ensures kept { IfOk result (λ t. (link : FlowLink) → IsFlowKept link t) }
        ensures standing { IfOk result (λ t. (times : List ℕ) (link : FlowLink)
            → flow_under_way t ≡ flow_standing times link [] []) }
        ensures sent { IfOk result (λ t. t.sent ≡ 0) }
        ensures acks { IfOk result (λ t. t.acks.items ≡ []) }
    {
        let flight = HeapCircularBuffer::with_capacity(alloc, FIRST_PLACES)?;
        Ok(FlowTraffic {
            time: 0,
            past: Past::none(),
            flight,
            lost: 0,
            since: 0,
            allowance: 0,
            in_flight: 0,
            sent: 0,
            acked: 0,
            passed: 0,
            acks: Vec::new(alloc),
        })
    }

    /// Sends one packet; the queue holds `room` packets.
    pub(crate) fn send(&mut self, link: &FlowLink, trace: &Trace, room: u32, sending: &mut Sending)
        requires link { IsFlowWithin link.now }
        requires kept { IsFlowKept link.now self.old }
        requires sending { IsSending trace.now sending.old }
        requires queue { room ≤ most_queue }
        requires room { self.old.in_flight < self.old.allowance }
        requires sent { self.old.sent < most_packets }
        ensures kept { IsFlowKept link.now self.new }
        ensures standing { flow_under_way self.new ≡ with_one trace.now link.now.delay_us sending.old.now
            (fate_now trace.now link.now room self.old.sent sending.old) (flow_under_way self.old) }
        ensures in_flight { self.new.in_flight ≡ self.old.in_flight + 1 }
        ensures allowance { self.new.allowance ≡ self.old.allowance }
        ensures sent { self.new.sent ≡ self.old.sent + 1 }
        ensures acks { self.new.acks ≡ self.old.acks }
        ensures sending { IsSending trace.now sending.new }
        ensures rounds { sending.new.rounds ≡ sending.old.rounds }
        ensures now { sending.new.now ≡ sending.old.now }
        ensures chance { IsNextChance trace.now link.now room self.old.sent sending.old sending.new }
    {
        if self.is_next_listed(link) || sending.queue.waiting >= u64::from(room) {
            self.lose(link, sending.now);
            return;
        }
        self.serve(link, trace, sending);
    }

    /// Whether the next packet's number is listed. Most flows have no listed loss, or none left: they are asked first.
    fn is_next_listed(&mut self, link: &FlowLink) -> bool
        requires link { IsFlowWithin link.now }
        requires kept { IsFlowKept link.now self.old }
        ensures kept { IsFlowKept link.now self.new }
        ensures listed { result ≡ is_listed self.old.sent link.now.losses }
        ensures standing { flow_under_way self.new ≡ flow_under_way self.old }
        ensures in_flight { self.new.in_flight ≡ self.old.in_flight }
        ensures allowance { self.new.allowance ≡ self.old.allowance }
        ensures sent { self.new.sent ≡ self.old.sent }
        ensures acks { self.new.acks ≡ self.old.acks }
    {
        let losses = link.losses.as_slice();
        if self.passed >= losses.len() {
            return is_at(losses, self.passed, self.sent);
        }
        self.passed = next_loss(losses, self.passed, self.sent);
        is_at(losses, self.passed, self.sent)
    }

    /// Sends a packet that is lost, at `now`, in microseconds.
    fn lose(&mut self, link: &FlowLink, now: u64)
        requires kept { IsFlowKept link.now self.old }
        requires room { self.old.in_flight < self.old.allowance }
        requires sent { self.old.sent < most_packets }
        requires now { now ≤ 2 ^ 34 }
        ensures kept { IsFlowKept link.now self.new }
        ensures standing { flow_under_way self.new ≡ with_one [] 0 now Lost (flow_under_way self.old) }
        ensures in_flight { self.new.in_flight ≡ self.old.in_flight + 1 }
        ensures allowance { self.new.allowance ≡ self.old.allowance }
        ensures sent { self.new.sent ≡ self.old.sent + 1 }
        ensures acks { self.new.acks ≡ self.old.acks }
    {
        // for the contract alone: what holds of a flow depends on its listed losses
        let _ = link;
        self.since = first_since(self.lost, self.since, now);
        self.lost += 1;
        self.in_flight += 1;
        self.sent += 1;
    }

    /// Sends a packet that gets the queue's next chance.
    fn serve(&mut self, link: &FlowLink, trace: &Trace, sending: &mut Sending)
        requires link { IsFlowWithin link.now }
        requires kept { IsFlowKept link.now self.old }
        requires sending { IsSending trace.now sending.old }
        requires waiting { sending.old.queue.waiting < most_queue }
        requires room { self.old.in_flight < self.old.allowance }
        requires sent { self.old.sent < most_packets }
        ensures kept { IsFlowKept link.now self.new }
        ensures standing { flow_under_way self.new ≡ with_one trace.now link.now.delay_us sending.old.now
            (served_now trace.now link.now sending.old) (flow_under_way self.old) }
        ensures in_flight { self.new.in_flight ≡ self.old.in_flight + 1 }
        ensures allowance { self.new.allowance ≡ self.old.allowance }
        ensures sent { self.new.sent ≡ self.old.sent + 1 }
        ensures acks { self.new.acks ≡ self.old.acks }
        ensures sending { IsSending trace.now sending.new }
        ensures rounds { sending.new.rounds ≡ sending.old.rounds }
        ensures now { sending.new.now ≡ sending.old.now }
        ensures chance { chance_number trace.now sending.new.next ≡ chance_number trace.now sending.old.queue.next + 1 }
    {
        let own = trace.time_of(sending.queue.next);
        let arrival = Arrival {
            lost: self.lost,
            sent_at: sending.now,
            at: own + link.delay_us,
            marked: is_marked(link.mark, u128::from(sending.queue.waiting)),
        };
        put(&mut self.flight, arrival);
        self.lost = 0;
        self.since = 0;
        self.in_flight += 1;
        self.sent += 1;
        sending.serve(trace, own);
    }
}

/// When the first of the lost packets was sent, after one more is lost at `now`: before it there were `lost`, the first
/// of which was sent at `since`.
fn first_since(lost: u64, since: u64, now: u64) -> u64
    ensures { result ≡ (if lost == 0 then now else since) }
{
    if lost == 0 { now } else { since }
}

/// Appends a packet to those in flight.
fn put(flight: &mut HeapCircularBuffer<Arrival>, arrival: Arrival)
    requires room { length flight.old.items < flight.old.capacity }
    ensures items { flight.new.items ≡ flight.old.items ++ arrival ∷ [] }
    ensures capacity { flight.new.capacity ≡ flight.old.capacity }
{
    let _ = flight.push_back(arrival);
}

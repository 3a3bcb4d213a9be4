//! What is under way on a link: packets sent, lost, in flight, acknowledged or timed out.
ghost use Rattle.std.specs.Prelude.{◌≡◌, ◌+◌, ◌-◌, ◌<◌, ◌≤◌, [], ◌∷◌, ◌++◌, length, None, IfOk, IfSome};
ghost use Rattle.ccp_base.specs.Limits.{most_flight, most_acks};
ghost use Rattle.link_model.specs.Counts.{most_packets};
ghost use Rattle.link_model.specs.Link.{is_listed, is_marked};
ghost use Rattle.link_model.specs.Standing.{first_standing};
ghost use Rattle.link_model.specs.LinkMoves.{standing_in, TakesStep, SendsOn, with_lost, served_now, sending, waiting_now, link_ack, standing_after_ack};
ghost use Rattle.link_model.specs.Rated.{rated};
ghost use Rattle.link_model.specs.Rings.{arrivals_in};
ghost use Rattle.link_model.specs.Horizon.{IsKept, IsCounted};

use crate::arrival::Arrival;
use crate::flight::Flight;
use crate::line::Line;
use crate::link_case::LinkCase;
use crate::past::Past;
use ccp_base::Ack;
use circular_buffer::HeapCircularBuffer;
use std::alloc::{AllocError, Global};

/// What is under way on a link.
#[derive(Drop)]
pub(crate) struct Traffic {
    /// The link's time, in microseconds.
    pub(crate) time: u64,
    /// What later acknowledgements take from earlier ones.
    pub(crate) past: Past,
    /// The packets in flight that aren't lost. Those taken out were acknowledged.
    pub(crate) flight: Flight,
    /// How many lost packets lie after them.
    pub(crate) lost: u64,
    /// How many packets are in flight, lost ones counted.
    pub(crate) in_flight: u64,
    /// The packets that wait for their chances, and the chance after the last one that a packet got.
    pub(crate) line: Line,
    /// How many packets were sent.
    pub(crate) sent: u64,
    /// How many calls were made.
    pub(crate) calls: u32,
    /// How many of the losses listed have numbers below the next packet's; it may lag behind.
    pub(crate) passed: usize,
    /// The number of the loss listed after those, or 2^64 - 1 if there is none.
    pub(crate) next_loss: u64,
}

impl Traffic {
    /// What is under way before the first call: nothing. Reserves memory for the packets in flight.
    pub(crate) fn new(alloc: Global, case: &LinkCase) -> Result<Traffic, AllocError>
        ensures kept { IfOk result (λ t. IsKept case.now t) }
        ensures counted { IfOk result (λ t. IsCounted t) }
        ensures standing { IfOk result (λ t. standing_in case.now.trace t ≡ first_standing case.now) }
        ensures calls { IfOk result (λ t. t.calls ≡ 0) }
    {
        let _ = case.trace.as_slice();
        let flight = Flight::new(alloc)?;
        Ok(Traffic {
            time: 0,
            past: Past::none(),
            flight,
            lost: 0,
            in_flight: 0,
            line: Line::new(&case.trace),
            sent: 0,
            calls: 0,
            passed: 0,
            next_loss: case.loss_at(0),
        })
    }

    /// Sends `more` packets at the link's time.
    #[inline(always)]
    pub(crate) fn send(&mut self, case: &LinkCase, more: u64)
        requires kept { IsKept case.now self.old }
        requires room { self.old.in_flight + more ≤ most_flight }
        requires sent { self.old.sent + more ≤ most_packets }
        requires calls { self.old.calls ≤ most_acks }
        ensures sending { TakesStep case.now (sending case.now more) self.old self.new }
        ensures kept { IsKept case.now self.new }
        ensures in_flight { self.new.in_flight ≡ self.old.in_flight + more }
        ensures sent { self.new.sent ≡ self.old.sent + more }
        ensures acked { self.new.flight.taken ≡ self.old.flight.taken }
        ensures calls { self.new.calls ≡ self.old.calls }
    {
        let mut left = more;
        while left > 0 {
            left = self.send_some(case, left);
        }
    }

    /// Sends one of the `left` packets that are left to be sent, or all of them if the queue is full. Answers how many
    /// are left then.
    #[inline(always)]
    fn send_some(&mut self, case: &LinkCase, left: u64) -> u64
        requires kept { IsKept case.now self.old }
        requires some { 0 < left }
        requires room { self.old.in_flight + left ≤ most_flight }
        requires sent { self.old.sent + left ≤ most_packets }
        requires calls { self.old.calls ≤ most_acks }
        ensures sending { SendsOn case.now left self.old result self.new }
        ensures kept { IsKept case.now self.new }
        ensures fewer { result < left }
        ensures in_flight { self.new.in_flight + result ≡ self.old.in_flight + left }
        ensures sent { self.new.sent + result ≡ self.old.sent + left }
        ensures acked { self.new.flight.taken ≡ self.old.flight.taken }
        ensures calls { self.new.calls ≡ self.old.calls }
    {
        if self.is_next_listed(case) {
            self.lose(case, 1);
            return left - 1;
        }
        let Some(marked) = self.mark_of_next(case) else {
            self.lose(case, left);
            return 0;
        };
        self.serve(case, marked);
        left - 1
    }

    /// Whether the next packet is listed as lost.
    #[inline(always)]
    fn is_next_listed(&mut self, case: &LinkCase) -> bool
        requires kept { IsKept case.now self.old }
        requires sent { self.old.sent < most_packets }
        ensures listed { result ≡ is_listed self.old.sent case.now.losses }
        ensures kept { IsKept case.now self.new }
        ensures standing { standing_in case.now.trace self.new ≡ standing_in case.now.trace self.old }
        ensures in_flight { self.new.in_flight ≡ self.old.in_flight }
        ensures sent { self.new.sent ≡ self.old.sent }
        ensures acked { self.new.flight.taken ≡ self.old.flight.taken }
        ensures calls { self.new.calls ≡ self.old.calls }
    {
        if self.sent < self.next_loss {
            return false;
        }
        self.passed = case.next_loss(self.passed, self.sent);
        self.next_loss = case.loss_at(self.passed);
        case.loses(self.passed, self.sent)
    }

    /// Whether the next packet is marked if it isn't lost. None if the queue is full.
    #[inline(always)]
    fn mark_of_next(&mut self, case: &LinkCase) -> Option<bool>
        requires kept { IsKept case.now self.old }
        requires sent { self.old.sent ≤ most_packets }
        requires calls { self.old.calls ≤ most_acks }
        ensures room { IfSome result (λ _.
            waiting_now case.now (standing_in case.now.trace self.old) < case.now.queue) }
        ensures mark { IfSome result (λ marked. marked
            ≡ is_marked case.now.mark (waiting_now case.now (standing_in case.now.trace self.old))) }
        ensures full { result ≡ None
            → case.now.queue ≤ waiting_now case.now (standing_in case.now.trace self.old) }
        ensures kept { IsKept case.now self.new }
        ensures standing { standing_in case.now.trace self.new ≡ standing_in case.now.trace self.old }
        ensures in_flight { self.new.in_flight ≡ self.old.in_flight }
        ensures sent { self.new.sent ≡ self.old.sent }
        ensures acked { self.new.flight.taken ≡ self.old.flight.taken }
        ensures calls { self.new.calls ≡ self.old.calls }
    {
        if self.flight.put < self.line.free_until {
            return Some(false);
        }
        let waiting = self.line.count_waiting(case, &self.flight, self.time);
        if waiting >= u64::from(case.queue) {
            return None;
        }
        Some(case.marks(u128::from(waiting)))
    }

    /// Sends `more` packets, all of which are lost.
    #[inline]
    fn lose(&mut self, case: &LinkCase, more: u64)
        requires kept { IsKept case.now self.old }
        requires room { self.old.in_flight + more ≤ most_flight }
        requires sent { self.old.sent + more ≤ most_packets }
        ensures standing { TakesStep case.now (with_lost more) self.old self.new }
        ensures kept { IsKept case.now self.new }
        ensures in_flight { self.new.in_flight ≡ self.old.in_flight + more }
        ensures sent { self.new.sent ≡ self.old.sent + more }
        ensures acked { self.new.flight.taken ≡ self.old.flight.taken }
        ensures calls { self.new.calls ≡ self.old.calls }
    {
        let _ = case;
        self.lost += more;
        self.in_flight += more;
        self.sent += more;
    }

    /// Sends a packet that gets the next chance of the line, marked or not.
    #[inline(always)]
    fn serve(&mut self, case: &LinkCase, marked: bool)
        requires kept { IsKept case.now self.old }
        requires mark { marked
            ≡ is_marked case.now.mark (waiting_now case.now (standing_in case.now.trace self.old)) }
        requires room { self.old.in_flight + 1 ≤ most_flight }
        requires sent { self.old.sent + 1 ≤ most_packets }
        requires calls { self.old.calls ≤ most_acks }
        ensures standing { TakesStep case.now (served_now case.now) self.old self.new }
        ensures kept { IsKept case.now self.new }
        ensures in_flight { self.new.in_flight ≡ self.old.in_flight + 1 }
        ensures sent { self.new.sent ≡ self.old.sent + 1 }
        ensures acked { self.new.flight.taken ≡ self.old.flight.taken }
        ensures calls { self.new.calls ≡ self.old.calls }
    {
        let now = self.time;
        self.line.advance_to(case, &self.flight, now);
        let arrival = Arrival {
            lost: self.lost,
            sent_at: now,
            at: self.line.next.at + case.delay_us,
            marked,
        };
        self.flight.push(arrival);
        self.lost = 0;
        self.in_flight += 1;
        self.sent += 1;
        self.line.take_chance(&case.trace);
    }

    /// Acknowledges the first packet in flight that isn't lost, or times out if there is none. Writes the
    /// acknowledgement into `ack`; its rates are computed only if `rates` is true, and are 0 otherwise.
    #[inline(always)]
    pub(crate) fn acknowledge(&mut self, case: &LinkCase, rates: bool, ack: &mut Ack)
        requires kept { IsKept case.now self.old }
        requires sent { self.old.sent ≤ most_packets }
        requires acked { self.old.flight.taken ≤ self.old.calls }
        requires calls { self.old.calls < most_acks }
        ensures ack { ack.new ≡ rated rates (link_ack case.now (standing_in case.now.trace self.old)) }
        ensures standing { TakesStep case.now (standing_after_ack case.now) self.old self.new }
        ensures kept { IsKept case.now self.new }
        ensures sent { self.new.sent ≡ self.old.sent }
        ensures acked { self.new.flight.taken ≤ self.new.calls }
        ensures calls { self.new.calls ≡ self.old.calls + 1 }
    {
        if self.flight.is_empty() {
            self.time_out(case, rates, ack);
            return;
        }
        let arrival = self.flight.take_first();
        self.in_flight -= arrival.lost + 1;
        self.calls += 1;
        self.time = arrival.at;
        let stay = self.in_flight;
        *ack = case.arrival_ack(
            arrival,
            self.past,
            stay,
            self.flight.taken,
            self.sent,
            rates,
        );
        self.past = Past::after(ack);
    }

    /// Times out: all packets in flight are lost. `rates` and `ack` are as in `acknowledge`.
    #[inline]
    fn time_out(&mut self, case: &LinkCase, rates: bool, ack: &mut Ack)
        requires kept { IsKept case.now self.old }
        requires none { arrivals_in self.old.flight ≡ [] }
        requires sent { self.old.sent ≤ most_packets }
        requires acked { self.old.flight.taken ≤ self.old.calls }
        requires calls { self.old.calls < most_acks }
        ensures ack { ack.new ≡ rated rates (link_ack case.now (standing_in case.now.trace self.old)) }
        ensures standing { TakesStep case.now (standing_after_ack case.now) self.old self.new }
        ensures kept { IsKept case.now self.new }
        ensures sent { self.new.sent ≡ self.old.sent }
        ensures acked { self.new.flight.taken ≡ self.old.flight.taken }
        ensures calls { self.new.calls ≡ self.old.calls + 1 }
    {
        let lost = self.lost;
        let now = self.time + case.timeout_us;
        self.lost = 0;
        self.in_flight = 0;
        self.calls += 1;
        self.time = now;
        *ack = case.timeout_ack(now, self.past, lost, self.flight.taken, self.sent, rates);
        self.past = Past::after(ack);
    }
}

/// Appends a packet to those in flight.
#[inline]
pub fn put_in_flight(flight: &mut HeapCircularBuffer<Arrival>, arrival: Arrival)
    requires capacity { flight.old.capacity ≡ most_flight }
    requires room { length flight.old.items < most_flight }
    ensures items { flight.new.items ≡ flight.old.items ++ arrival ∷ [] }
    ensures capacity { flight.new.capacity ≡ most_flight }
{
    let _ = flight.push_back(arrival);
}

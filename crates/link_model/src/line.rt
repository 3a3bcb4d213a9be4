//! The packets that wait for their chances on a link, as time passes and more packets get chances.
ghost use Rattle.std.specs.Prelude.{◌≡◌, ◌+◌, ◌^◌, ◌<◌, ◌≤◌, length};
ghost use Rattle.ccp_base.specs.Limits.{most_flight};
ghost use Rattle.link_model.specs.Traces.{IsTrace, search_reach};
ghost use Rattle.link_model.specs.Chances.{chance_number};
ghost use Rattle.link_model.specs.Lines.{IsComing, IsLine, due_number, waiting_before};
ghost use Rattle.link_model.specs.Rings.{IsRing};

use crate::chance::{Chance, Coming};
use crate::flight::Flight;
use crate::link_case::LinkCase;
use crate::trace::Trace;

/// The line of the packets that wait for their chances: the last ones of those in flight.
#[derive(Clone, Copy)]
pub(crate) struct Line {
    /// The chance after the last one that a packet got.
    pub(crate) next: Coming,
    /// How many of the packets that were put in flight are known to have chances that are gone by; it may lag behind.
    pub(crate) gone: u64,
    /// While fewer packets than this were put in flight, the next one finds room in the queue and isn't marked.
    pub(crate) free_until: u64,
}

impl Line {
    /// The line before any packet was sent.
    pub(crate) fn new(trace: &Trace) -> Line
        requires valid { IsTrace trace.now }
        ensures next { IsComing trace.now result.next }
        ensures first { chance_number trace.now result.next.chance ≡ 0 }
        ensures gone { result.gone ≡ 0 }
        ensures free { result.free_until ≡ 0 }
    {
        let chance = Chance { turn: 0, place: 0 };
        let at = trace.time_of(chance);
        Line {
            next: Coming { chance, at },
            gone: 0,
            free_until: 0,
        }
    }

    /// How many packets wait at the time `now`, in microseconds. Looks only at packets that weren't known to have
    /// chances that are gone by.
    #[inline]
    pub(crate) fn count_waiting(&mut self, case: &LinkCase, flight: &Flight, now: u64) -> u64
        requires valid { IsTrace case.now.trace }
        requires ring { IsRing flight.now }
        requires line { IsLine case.now now flight.now self.old }
        requires time { now + case.now.delay_us < 2 ^ 64 }
        requires few { flight.now.put + most_flight < 2 ^ 64 }
        ensures line { IsLine case.now now flight.now self.new }
        ensures waiting { result
            ≡ waiting_before case.now.trace (chance_number case.now.trace self.old.next.chance) now }
        ensures next { self.new.next ≡ self.old.next }
    {
        let mut from = self.gone.max(flight.taken);
        while from < flight.put && flight.arrival_time(from) <= now + case.delay_us {
            from += 1;
        }
        self.gone = from;
        self.free_until = from + case.least_noticed();
        flight.put - from
    }

    /// Moves the next chance on to one that isn't before `now`, in microseconds: chances before then that no packet has
    /// are left out.
    #[inline(always)]
    pub(crate) fn advance_to(&mut self, case: &LinkCase, flight: &Flight, now: u64)
        requires valid { IsTrace case.now.trace }
        requires ring { IsRing flight.now }
        requires line { IsLine case.now now flight.now self.old }
        requires time { now + search_reach < 2 ^ 64 }
        ensures line { IsLine case.now now flight.now self.new }
        ensures next { chance_number case.now.trace self.new.next.chance ≡ due_number case.now.trace self.old now }
        ensures late { now ≤ self.new.next.at }
        ensures order { self.old.next.at ≤ self.new.next.at }
    {
        if self.next.at >= now {
            return;
        }
        // The chances of all packets are gone by.
        self.next = case.trace.first_due(self.next, now);
        self.gone = flight.put;
    }

    /// Gives the next chance to a packet.
    #[inline(always)]
    pub(crate) fn take_chance(&mut self, trace: &Trace)
        requires valid { IsTrace trace.now }
        requires next { IsComing trace.now self.old.next }
        requires time { self.old.next.at + search_reach < 2 ^ 64 }
        ensures next { IsComing trace.now self.new.next }
        ensures number { chance_number trace.now self.new.next.chance
            ≡ chance_number trace.now self.old.next.chance + 1 }
        ensures order { self.old.next.at ≤ self.new.next.at }
        ensures gone { self.new.gone ≡ self.old.gone }
        ensures free { self.new.free_until ≡ self.old.free_until }
    {
        self.next = trace.next_chance(self.next);
    }
}

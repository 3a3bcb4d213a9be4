//! The queue of a link at one time: its next free chance, and how many packets wait.
ghost use Rattle.std.specs.Prelude.{◌≡◌, ◌+◌, ◌-◌, ◌^◌, ◌<◌, max, length};
ghost use Rattle.link_model.specs.Chances.{chance_number, chance_time, first_chance};

use crate::chance::Chance;
use crate::trace::Trace;

/// The queue at one time.
#[derive(Clone, Copy)]
pub struct Queue {
    /// The first chance that isn't before that time and that no packet has.
    pub next: Chance,
    /// How many packets have a chance later than that time.
    pub waiting: u64,
    /// The place in the trace at which a search at a later time looks first.
    pub near: usize,
}

impl Trace {
    /// The queue at `now`, in microseconds, if `next` is the chance after the last one that a packet got. Looks at the
    /// place `near` of the trace first. Any number may be `near`.
    #[inline(always)]
    pub fn queue(&self, next: Chance, now: u64, near: usize) -> Queue
        requires place { next.place < length self.now }
        requires fits { chance_time self.now (chance_number self.now next) < 2 ^ 64 }
        requires few { chance_number self.now next - first_chance self.now (now + 1) 0 < 2 ^ 64 }
        requires time { now + 1001 < 2 ^ 64 }
        ensures place { result.next.place < length self.now }
        ensures next { chance_number self.now result.next
            ≡ max (chance_number self.now next) (first_chance self.now now 0) }
        ensures waiting { result.waiting ≡ chance_number self.now next - first_chance self.now (now + 1) 0 }
    {
        let own = self.time_of(next);
        if own > now {
            let later = self.find_first_chance(now + 1, near);
            return Queue {
                next,
                waiting: self.count_between(later, next),
                near: later.place,
            };
        }
        if own < now {
            let due = self.find_first_chance(now, near);
            return Queue {
                next: due,
                waiting: 0,
                near: due.place,
            };
        }
        Queue {
            next,
            waiting: 0,
            near,
        }
    }
}

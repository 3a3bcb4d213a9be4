//! The queue of a shared link as the flows send within a round.
ghost use Rattle.std.specs.Prelude.{◌≡◌, ◌+◌, ◌*◌, ◌<◌, ◌≤◌, length};
ghost use Rattle.ccp_base.specs.Limits.{most_queue, most_rounds, most_quantum_us};
ghost use Rattle.link_model.specs.Traces.{IsTrace};
ghost use Rattle.link_model.specs.Chances.{chance_number, chance_time, first_chance};
ghost use Rattle.shared_link.specs.Kept.{IsSending};

use link_model::{Chance, Queue, Trace};

/// The sending of a round.
#[derive(Clone, Copy)]
pub(crate) struct Sending {
    /// How many rounds there were before.
    pub(crate) rounds: u32,
    /// The round's time, in microseconds.
    pub(crate) now: u64,
    /// The chance after the last one that a packet got.
    pub(crate) next: Chance,
    /// The queue at the round's time.
    pub(crate) queue: Queue,
}

impl Sending {
    /// The sending of a round at `now`, in microseconds, before its first packet; `next` is the chance after the last
    /// one that a packet got. Looks at the place `near` of the trace first.
    pub(crate) fn at(trace: &Trace, rounds: u32, now: u64, next: Chance, near: usize) -> Sending
        requires valid { IsTrace trace.now }
        requires rounds { rounds < most_rounds }
        requires now { now ≤ most_rounds * most_quantum_us }
        requires place { next.place < length trace.now }
        requires waiting { chance_number trace.now next ≤ first_chance trace.now (now + 1) 0 + most_queue }
        ensures sending { IsSending trace.now result }
        ensures rounds { result.rounds ≡ rounds }
        ensures now { result.now ≡ now }
        ensures next { result.next ≡ next }
    {
        let queue = trace.queue(next, now, near);
        Sending {
            rounds,
            now,
            next,
            queue,
        }
    }

    /// Gives the queue's next chance, which comes at `own`, in microseconds, to a packet.
    pub(crate) fn serve(&mut self, trace: &Trace, own: u64)
        requires sending { IsSending trace.now self.old }
        requires waiting { self.old.queue.waiting < most_queue }
        requires own { own ≡ chance_time trace.now (chance_number trace.now self.old.queue.next) }
        ensures sending { IsSending trace.now self.new }
        ensures rounds { self.new.rounds ≡ self.old.rounds }
        ensures now { self.new.now ≡ self.old.now }
        ensures chance { chance_number trace.now self.new.next ≡ chance_number trace.now self.old.queue.next + 1 }
    {
        self.next = trace.after(self.queue.next);
        self.queue.next = self.next;
        if own > self.now {
            self.queue.waiting += 1;
        }
    }
}

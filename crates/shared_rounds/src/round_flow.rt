//! A flow of a run as its rounds see it.
ghost use Rattle.std.specs.Prelude.{◌≡◌, ◌+◌, IfOk};

use crate::course::Course;
use crate::known_flow::KnownFlow;
use crate::round_acks::RoundAcks;
use ccp_base::NoMemory;
use crossbeam_utils::CachePadded;
use std::alloc::Global;
use std::sync::{Mutex, Wait};

/// A flow of a run, whatever it keeps of its history.
pub trait RoundFlow<C: Course>: Drop {
    /// What is known of the flow before the first round. The call waits forever if it is another one: a lock's type can't
    /// say that the lock kept the flow.
    fn know<R: Wait>(&self, rt: &R, number: u32) -> Result<KnownFlow<C>, NoMemory>
        ensures number { IfOk result (λ known. known.number ≡ number) }
        ensures round { IfOk result (λ known. known.round ≡ 0) };

    /// The flow's part of a round, and what is known of the flow then. The call waits forever if it isn't the flow that is
    /// through the rounds before: a lock's type can't say that the lock kept it.
    fn hear_part<R: Wait>(
        &mut self,
        rt: &R,
        alloc: Global,
        acks: &RoundAcks<C>,
    ) -> Result<KnownFlow<C>, NoMemory>
        ensures number { IfOk result (λ known. known.number ≡ acks.now.number) }
        ensures round { IfOk result (λ known. known.round ≡ acks.now.round + 1) };
}

/// A flow behind its lock. The flows of a run are in one list, in which each has cache lines of its own: two threads that
/// write values of one line take it from each other at each write.
pub type LockedFlow<F> = CachePadded<Mutex<F>>;

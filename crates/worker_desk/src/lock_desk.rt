//! The trait for what the desks of workers have in common: the flows' locks and the gate.
ghost use Rattle.std.specs.Prelude.{◌≡◌, ℕ, ◌<◌, ◌≤◌, Option, Some, None, List, [], ◌∷◌};
ghost use Rattle.worker_desk.specs.Logs.{Logs};
ghost use Rattle.worker_desk.specs.declared.event.Event.{Event};
ghost use Rattle.worker_desk.specs.declared.event.Event.TheVariants.{Passed, Locked, Unlocked};

use crate::event::Event;
use ccp_base::Point;

/// Flows behind locks, of which a worker holds one at a time, and a gate.
pub trait LockDesk {
    /// What keeps a flow's lock until it is dropped.
    type Guard: Drop;

    // what was done here, if the desk keeps that
    ghost log: { Self → Option (List Event) };

    // the flow whose lock is held
    ghost held: { Self → Option ℕ };

    // how many flows there are
    ghost flows: { Self → ℕ };

    // how much may still come: acknowledgements for a datapath worker, numbers for an agent worker, else nothing
    ghost coming: { Self → ℕ } = { λ desk. 0 };

    // what a call that makes no letter of the flow whose lock is held made of it
    ghost HasKept: { Self → Self → Type 0 } = { λ old new. Unit {0} };

    // the lock that was held is the guard's, and the guard has the flow as it was
    ghost HasReleased: { Self → Self.Guard → Type 0 } = { λ old guard. Unit {0} };

    /// How many flows there are, at most 64.
    fn flow_count(&self) -> u32
        ensures flows { result ≡ flows self.now }
        ensures few { result ≤ 64 };

    /// Takes a flow's lock.
    fn lock(&mut self, flow: u32)
        requires flow { flow < flows self.old }
        requires free { held self.old ≡ None }
        ensures log { Logs (log self.old) (log self.new) (Locked flow ∷ []) }
        ensures held { held self.new ≡ Some flow }
        ensures flows { flows self.new ≡ flows self.old }
        ensures coming { coming self.new ≡ coming self.old };

    /// The guard of the flow's lock. Whoever drops it gives the lock back.
    fn unlock(&mut self, flow: u32) -> Self::Guard
        requires { held self.old ≡ Some flow }
        ensures log { Logs (log self.old) (log self.new) (Unlocked flow ∷ []) }
        ensures released { HasReleased self.old result }
        ensures held { held self.new ≡ None }
        ensures flows { flows self.new ≡ flows self.old }
        ensures coming { coming self.new ≡ coming self.old };

    /// Passes a point of the gate. The number is the flow's.
    fn pass(&mut self, worker: u32, point: Point, flow: u32)
        ensures log { Logs (log self.old) (log self.new) (Passed worker point flow ∷ []) }
        ensures kept { HasKept self.old self.new }
        ensures held { held self.new ≡ held self.old }
        ensures flows { flows self.new ≡ flows self.old }
        ensures coming { coming self.new ≡ coming self.old };
}

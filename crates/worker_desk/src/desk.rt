//! The trait for a datapath worker's desk: locks, acknowledgements and nudges.
ghost use Rattle.std.specs.Prelude.{◌≡◌, ℕ, ◌+◌, ◌≤◌, Some, [], ◌∷◌};
ghost use Rattle.worker_desk.specs.Logs.{Logs};
ghost use Rattle.worker_desk.specs.Serving.{heard_count};
ghost use Rattle.worker_desk.specs.declared.event.Heard.{Heard};
ghost use Rattle.worker_desk.specs.declared.event.Event.TheVariants.{Acked, Nudged};

use crate::event::Heard;
use crate::lock_desk::LockDesk;

/// What a datapath worker works on.
pub trait Desk: LockDesk {
    // what an ask made of the flow whose lock is held, and its answer
    ghost HasAcked: { Self → Self → Heard → Type 0 } = { λ old new answer. Unit {0} };

    /// Asks the flow whose lock is held for its next acknowledgement.
    fn ack(&mut self, worker: u32, flow: u32) -> Heard
        requires { Self.held self.old ≡ Some flow }
        ensures log { Logs (Self.log self.old) (Self.log self.new) (Acked worker flow result ∷ []) }
        ensures acked { HasAcked self.old self.new result }
        ensures held { Self.held self.new ≡ Self.held self.old }
        ensures flows { Self.flows self.new ≡ Self.flows self.old }
        ensures coming { Self.coming self.new + heard_count result ≤ Self.coming self.old };

    /// Sends an agent worker the number of a flow of which a report or a fault waits.
    fn nudge(&mut self, flow: u32)
        ensures log { Logs (Self.log self.old) (Self.log self.new) (Nudged flow ∷ []) }
        ensures kept { Self.HasKept self.old self.new }
        ensures held { Self.held self.new ≡ Self.held self.old }
        ensures flows { Self.flows self.new ≡ Self.flows self.old }
        ensures coming { Self.coming self.new ≡ Self.coming self.old };
}

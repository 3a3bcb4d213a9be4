//! The trait for an agent worker's desk: numbers of flows that come in, locks, tickets and answers.
ghost use Rattle.std.specs.Prelude.{◌≡◌, ◌<◌, Option, Some, [], ◌∷◌, IsSome};
ghost use Rattle.agent_core.specs.declared.ticket.Ticket.{Ticket};
ghost use Rattle.worker_desk.specs.Logs.{Logs};
ghost use Rattle.worker_desk.specs.declared.event.Event.TheVariants.{Received, Took, Settled};

use crate::lock_desk::LockDesk;
use agent_core::{Answer, Ticket};

/// What an agent worker works on.
pub trait AgentDesk: LockDesk {
    // what a taking made of the flow whose lock is held, and its ticket
    ghost HasTaken: { Self → Self → Option Ticket → Type 0 } = { λ old new taken. Unit {0} };

    // what the settling of an answer made of that flow
    ghost HasSettled: { Self → Self → Ticket → Type 0 } = { λ old new answer. Unit {0} };

    /// The number of a flow of which something waits, or None once no more come.
    fn receive(&mut self) -> Option<u32>
        ensures log { Logs (Self.log self.old) (Self.log self.new) (Received result ∷ []) }
        ensures kept { Self.HasKept self.old self.new }
        ensures held { Self.held self.new ≡ Self.held self.old }
        ensures flows { Self.flows self.new ≡ Self.flows self.old }
        ensures coming { IsSome result → Self.coming self.new < Self.coming self.old };

    /// The ticket of the flow whose lock is held; None if none can be taken.
    fn take(&mut self, flow: u32) -> Option<Ticket>
        requires { Self.held self.old ≡ Some flow }
        ensures log { Logs (Self.log self.old) (Self.log self.new) (Took flow result ∷ []) }
        ensures taken { HasTaken self.old self.new result }
        ensures held { Self.held self.new ≡ Self.held self.old }
        ensures flows { Self.flows self.new ≡ Self.flows self.old }
        ensures coming { Self.coming self.new ≡ Self.coming self.old };

    /// Settles an answer at the flow whose lock is held.
    fn settle(&mut self, flow: u32, answer: Answer)
        requires { Self.held self.old ≡ Some flow }
        ensures log { Logs (Self.log self.old) (Self.log self.new) (Settled flow answer ∷ []) }
        ensures settled { HasSettled self.old self.new answer }
        ensures held { Self.held self.new ≡ Self.held self.old }
        ensures flows { Self.flows self.new ≡ Self.flows self.old }
        ensures coming { Self.coming self.new ≡ Self.coming self.old };
}

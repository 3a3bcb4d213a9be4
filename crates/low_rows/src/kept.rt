//! What was done at a desk in memory.
ghost use Rattle.std.specs.Prelude.{◌≡◌, ◌++◌, [], ◌∷◌};

use std::process::Abort;
use worker_desk::Event;

/// Puts an event at the end of what was done.
pub(crate) fn keep<R: Abort>(rt: &R, events: &mut Vec<Event>, event: Event)
    ensures { events.new.items ≡ events.old.items ++ event ∷ [] }
{
    assert!(rt; events.push(event).is_ok());
}

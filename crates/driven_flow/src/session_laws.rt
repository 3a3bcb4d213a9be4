//! Laws of sessions: what holds whatever the frames are.
ghost use Rattle.driven_flow.specs.SessionLaws.{EndsForGood, KeepsPrograms, FlowsKeepPrograms};
ghost use Rattle.driven_flow.specs.SessionLaws.{RefusesWithoutChange, AllReadAlike};

use crate::session::Session;

/// A law: after all flows are at their end a frame changes nothing, and each Update and Change is refused; no frame
/// changes the programs, which are those of each flow; and a frame that is refused changes nothing.
pub fn session_law()
    ensures ended { EndsForGood }
    ensures programs { KeepsPrograms }
    ensures flows { FlowsKeepPrograms }
    ensures refused { RefusesWithoutChange }
{}

/// A law: over the sources of the programs each flow of the session has the same state, greatest window, next letter and
/// row, where each fault's instruction stands for its place.
pub fn session_lift_law(session: &Session<'_>)
    ensures { AllReadAlike session.now }
{
    let _ = session;
}

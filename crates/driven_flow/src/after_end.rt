//! The law of frames after the end of a session's last flow.
ghost use Rattle.driven_flow.specs.AfterEnd.{RefusesAfterEnd};

/// A law: in a session in which no flow waits, all further frames leave the session as it is, and are answered by one
/// Refused for each Update and Change, in order and in the frame's version, with the reason `NoFlow` and index 0.
pub fn after_end_law()
    ensures { RefusesAfterEnd }
{}

//! Laws of the frames of an input: what holds whatever answers them.
ghost use Rattle.feed_core.specs.FrameLaws.{AnswersFronts, GoesOnAfterFrames};

use crate::answerer::Answerer;

/// A law: the answers to the first bytes of an input are a front of those to the whole; and what follows whole frames is
/// answered, and ends, as from the state and the place that they leave.
pub fn frames_law<A: Answerer>()
    ensures fronts { AnswersFronts A.answer_of }
    ensures goes_on { GoesOnAfterFrames A.answer_of A.is_waiting }
{}

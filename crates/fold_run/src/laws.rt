//! The laws of reading: how a text is cut at the separator, and which acknowledgements its lines give.
ghost use Rattle.fold_run.specs.ReadingLaws.{CutLaw, AcksLaw};

/// A text that is cut is its program, a separator line and the rest, and no line of the program is a separator. Lines
/// have acknowledgements, those that the lines give, exactly if no line is refused and there are at most 65,536.
pub fn reading_laws()
    ensures cut { CutLaw }
    ensures acks { AcksLaw }
{}

//! Laws between modes, over what their texts and frames are defined by. No run is named.
ghost use Rattle.mode_laws.specs.FeedLaws.{FeedAnswersAsFold, FeedAnswersFrames, StartsAtWindowZero};
ghost use Rattle.mode_laws.specs.RowLaws.{TellsRows};

/// A law: a program that was tried in `fold` does the same on a flow of `feed`.
///
/// If the datapath starts the program as `fold` does, its answers to the acknowledgements are the reports of `fold` in
/// order, and then its fault, if there is one. Spans, times, windows, rates and fields are the same; so are a fault's
/// kind and the number of its acknowledgement. Where `fold` prints the place of the operation that faulted, the answer
/// has the number of the instruction that stands for it (`answers`). A datapath without flows starts every program so
/// if `Cwnd` gets the value 0 (`starts`). The frames of messages are an input of `feed`, which writes the frames of
/// their answers (`frames`).
///
/// In both modes every report finds room. They differ in three respects. `fold` takes at most 65,536 acknowledgements,
/// `feed` as many as have frames in its longest input. A flow of version 1 has no program of more than 32 fields.
/// No frame has what `fold` prints in its last line.
pub fn fold_feed_law()
    ensures answers { FeedAnswersAsFold }
    ensures starts { StartsAtWindowZero }
    ensures frames { FeedAnswersFrames }
{}

/// A law: the row that `campaign` has of a flow agrees with the lines of its timeline.
pub fn timeline_row_law()
    ensures { TellsRows }
{}

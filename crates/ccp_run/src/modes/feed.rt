//! The mode `feed`.

ghost use Rattle.std.specs.Prelude.{◌≡◌};
ghost use Rattle.ccp_words.specs.declared.mode.Alone.TheVariants as modes;
ghost use Rattle.run_ending.specs.Streams.{stream_change};
ghost use Rattle.ccp_run.specs.FeedEndings.{EndsFeed};
ghost use Rattle.ccp_run.specs.Run.{IsRun};
ghost use Rattle.ccp_run.specs.Modes.{Task};

use ccp_base::{Sink, Source};
use feed_core::FeedEnd;
use feed_core::calls::feed;
use run_ending::{
    Limit, MEMORY_LINE, Outcome, READ_LINE, Refusal, Status, WRITE_LINE, end_without, refuse,
};
use std::alloc::Global;

/// Answers the frames of the source as they come, and reports why if it stops before a whole input's end.
pub fn run_feed<S: Source, K: Sink, E: Sink>(
    alloc: Global,
    source: &mut S,
    sink: &mut K,
    errors: &mut E,
) -> Outcome
    ensures { IsRun (Task.Alone modes.Feed)
        (stream_change S.remaining S.faults source.old source.new)
        (stream_change K.written K.faults sink.old sink.new)
        (stream_change E.written E.faults errors.old errors.new) (K.is_finished sink.new) result }
{
    let ended = feed(alloc, source, sink);
    end_feed(alloc, errors, ended)
}

/// Reports how a feed ended if its input isn't whole.
fn end_feed<E: Sink>(alloc: Global, errors: &mut E, ended: FeedEnd) -> Outcome
    ensures { EndsFeed (stream_change E.written E.faults errors.old errors.new) result ended }
{
    match ended {
        FeedEnd::Whole => Outcome::empty(alloc, Status::Done),
        FeedEnd::Bad(field, place) => refuse(alloc, Refusal::Frame(field, place), errors),
        FeedEnd::Cut(place) => refuse(alloc, Refusal::FrameCut(place), errors),
        FeedEnd::TooLong => refuse(alloc, Refusal::TooLong(Limit::Input), errors),
        FeedEnd::ReadFailed => end_without(alloc, errors, Status::ReadFailed, READ_LINE),
        FeedEnd::WriteFailed => end_without(alloc, errors, Status::WriteFailed, WRITE_LINE),
        FeedEnd::NoMemory(error) => end_without(
            alloc,
            errors,
            Status::NoMemory(error),
            MEMORY_LINE,
        ),
    }
}

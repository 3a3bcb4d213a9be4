//! The modes whose work is done by their caller alone, and the ends without words.

ghost use Rattle.std.specs.Prelude.{◌≤◌};
ghost use Rattle.ccp_base.specs.Outside.{no_memory};
ghost use Rattle.feed_core.specs.FeedEnds.{stream};
ghost use Rattle.run_ending.specs.Endings.{Ends};
ghost use Rattle.run_ending.specs.Statuses.{memory_line, words_line};
ghost use Rattle.run_ending.specs.Streams.{stream_change};
ghost use Rattle.ccp_run.specs.Complete.{DoesTask};
ghost use Rattle.ccp_run.specs.DriveEnds.{AllowsDrive, IsDriveEnd};
ghost use Rattle.ccp_run.specs.Modes.{Task};

use crate::drive_end::DriveEnd;
use crate::modes::drive::drive_frames;
use crate::modes::run_alone;
use ccp_base::{NoMemory, Sink, Source};
use ccp_words::Alone;
use feed_core::Duplex;
use run_ending::{MEMORY_LINE, Outcome, Status, WORDS_LINE, end_without};
use std::alloc::Global;

/// Does the work of a mode: in `feed` it answers the frames of the source as they come, in whatever pieces; else it
/// reads the source to its end, works out the mode's output, and writes it to the sink. If it can't, it reports why on
/// `errors`.
pub fn alone<S: Source, K: Sink, E: Sink>(
    alloc: Global,
    mode: Alone,
    source: &mut S,
    sink: &mut K,
    errors: &mut E,
) -> Outcome
    ensures { DoesTask (Task.Alone mode)
        (stream_change S.remaining S.faults source.old source.new)
        (stream_change K.written K.faults sink.old sink.new)
        (stream_change E.written E.faults errors.old errors.new) (K.is_finished sink.new) result }
{
    run_alone(alloc, mode, source, sink, errors)
}

/// Drives the flows of a scenario by the frames below it, which an agent at the other end sends: it writes and hands on
/// what the flows tell the agent, as a function of the bytes, in whatever pieces these come. It reads only where `allowed`
/// lets it: once all that is to be written for what it took is handed on, so that an agent can wait for an answer before
/// it sends more.
pub fn drive<D: Duplex>(alloc: Global, duplex: &mut D) -> DriveEnd
    requires allowed { AllowsDrive D.remaining D.written D.is_finished D.Follows D.MayRead duplex.old }
    ensures follows { D.Follows duplex.old duplex.new }
    ensures reads { D.read_faults duplex.old ≤ D.read_faults duplex.new }
    ensures writes { D.write_faults duplex.old ≤ D.write_faults duplex.new }
    ensures end { IsDriveEnd
        (stream (D.remaining duplex.old) (D.remaining duplex.new)
        (D.read_faults duplex.old) (D.read_faults duplex.new))
        (stream (D.written duplex.old) (D.written duplex.new)
        (D.write_faults duplex.old) (D.write_faults duplex.new))
        (D.is_finished duplex.new) result }
{
    drive_frames(alloc, duplex)
}

/// Ends if the words aren't text: reports that they are refused.
pub fn refuse_words<E: Sink>(alloc: Global, errors: &mut E) -> Outcome
    ensures { Ends (stream_change E.written E.faults errors.old errors.new) result Status.WordsRefused words_line }
{
    end_without(alloc, errors, Status::WordsRefused, WORDS_LINE)
}

/// Ends if there is no memory for the words: reports that.
pub fn without_words<E: Sink>(alloc: Global, errors: &mut E, error: NoMemory) -> Outcome
    ensures { Ends (stream_change E.written E.faults errors.old errors.new) result (Status.NoMemory no_memory) memory_line }
{
    end_without(alloc, errors, Status::NoMemory(error), MEMORY_LINE)
}

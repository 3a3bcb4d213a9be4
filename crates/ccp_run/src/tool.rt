//! The public call `run`: the whole tool on its words, a source, a sink and an error stream.
ghost use Rattle.std.specs.Prelude.{map, string_bytes};
ghost use Rattle.run_ending.specs.Streams.{stream_change};
ghost use Rattle.ccp_run.specs.Tool.{DoesWords};

use crate::modes::run_asked;
use ccp_base::{Gate, Sink, Source};
use ccp_words::{Unasked, read_words};
use run_ending::{MEMORY_LINE, Outcome, Status, WORDS_LINE, end_without};
use std::alloc::Global;
use std::sync::Wait;
use std::thread::Threads;

/// Does what the words ask for, from the source to the sink, or reports on `errors` why it can't. Workers pass the gate
/// at their points.
pub fn run<R: Threads + Wait + Sync, S: Source, K: Sink, E: Sink, G: Gate + Sync>(
    rt: &R,
    alloc: Global,
    words: Vec<String>,
    source: &mut S,
    sink: &mut K,
    errors: &mut E,
    gate: &G,
) -> Outcome
    ensures { DoesWords (map string_bytes words.items)
        (stream_change S.remaining S.faults source.old source.new)
        (stream_change K.written K.faults sink.old sink.new)
        (stream_change E.written E.faults errors.old errors.new) (K.is_finished sink.new) result }
{
    match read_words(alloc, &words) {
        Ok(asked) => run_asked(rt, alloc, asked, source, sink, errors, gate),
        Err(Unasked::Refused) => end_without(alloc, errors, Status::WordsRefused, WORDS_LINE),
        Err(Unasked::NoMemory(error)) => end_without(
            alloc,
            errors,
            Status::NoMemory(error),
            MEMORY_LINE,
        ),
    }
}

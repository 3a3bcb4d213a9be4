//! All that the process does, over any words and streams: `main` is this call on those of the system.
ghost use Rattle.std.specs.Prelude.{IfOk, map, string_bytes};
ghost use Rattle.std.specs.Iterator.{IsFinite};
ghost use Rattle.std.specs.Process.{exit_status};
ghost use Rattle.run_ending.specs.Streams.{stream_change};
ghost use Rattle.ccp.specs.Process.{IsExit, IsProcess, ReportsFault};

use crate::words::{WordsFault, words};
use ccp_base::{OpenGate, Sink, Source};
use ccp_run::calls::{refuse_words, without_words};
use ccp_run::run;
use std::alloc::Global;
use std::io;
use std::process::ExitCode;
use std::sync::Wait;
use std::thread::Threads;

/// Runs the tool on the words that the system gives and on the streams, and gives the status of the process. Words
/// that aren't UTF-8 are refused with status 2; out of memory for the words is status 6.
#[tactic(auto, using(crate::proofs::ProcessLemmas::ran, crate::proofs::ProcessLemmas::ended))]
pub fn run_process<
    R: Threads + Wait + Sync,
    I: Iterator<Item = String> + Drop,
    S: Source,
    K: Sink,
    E: Sink,
>(
    rt: &R,
    alloc: Global,
    given: io::Result<I>,
    source: &mut S,
    sink: &mut K,
    errors: &mut E,
) -> ExitCode
    requires ends { IfOk given (λ words. I.can_next words × IsFinite (I.remaining words)) }
    ensures { IsProcess I.next_gives given
        (stream_change S.remaining S.faults source.old source.new)
        (stream_change K.written K.faults sink.old sink.new)
        (stream_change E.written E.faults errors.old errors.new) (K.is_finished sink.new) (exit_status result) }
{
    match words(alloc, given) {
        Ok(words) => run_on(rt, alloc, words, source, sink, errors),
        Err(fault) => end_without_words(alloc, fault, errors),
    }
}

/// Runs the tool on these words.
fn run_on<R: Threads + Wait + Sync, S: Source, K: Sink, E: Sink>(
    rt: &R,
    alloc: Global,
    words: Vec<String>,
    source: &mut S,
    sink: &mut K,
    errors: &mut E,
) -> ExitCode
    ensures { IsExit (map string_bytes words.items)
        (stream_change S.remaining S.faults source.old source.new)
        (stream_change K.written K.faults sink.old sink.new)
        (stream_change E.written E.faults errors.old errors.new) (K.is_finished sink.new) (exit_status result) }
{
    let outcome = run(rt, alloc, words, source, sink, errors, &OpenGate);
    ExitCode::from(outcome.status)
}

/// Reports why there are no words.
#[tactic(auto, using(crate::proofs::ProcessLemmas::reports))]
fn end_without_words<E: Sink>(alloc: Global, fault: WordsFault, errors: &mut E) -> ExitCode
    ensures { ReportsFault fault (stream_change E.written E.faults errors.old errors.new) (exit_status result) }
{
    match fault {
        WordsFault::NotText => ExitCode::from(refuse_words(alloc, errors).status),
        WordsFault::NoMemory(error) => ExitCode::from(without_words(alloc, errors, error).status),
    }
}

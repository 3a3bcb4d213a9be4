//! How a run ends: with its output, or with a line for the error stream that gives the cause.
ghost use Rattle.std.specs.Prelude.{◌≡◌, ◌≤◌};
ghost use Rattle.run_ending.specs.Endings.{Ends, IsEnding, Refuses, Writes};
ghost use Rattle.run_ending.specs.Streams.{stream_change};

use crate::outcome::{ModeOutput, Outcome};
use crate::refusal::{Refusal, refusal_line};
use crate::status::{MEMORY_LINE, READ_LINE, Status, WRITE_LINE};
use crate::stop::Stop;
use ccp_base::{Sink, write_all};
use std::alloc::Global;

/// Writes the output, or reports why there is none.
pub fn end<K: Sink, E: Sink>(
    alloc: Global,
    made: Result<ModeOutput, Stop>,
    sink: &mut K,
    errors: &mut E,
) -> Outcome
    ensures { IsEnding
        (stream_change K.written K.faults sink.old sink.new)
        (stream_change E.written E.faults errors.old errors.new) (K.is_finished sink.new) result made }
{
    match made {
        Ok(output) => write_output(alloc, output, sink, errors),
        Err(Stop::Refused(refusal)) => refuse(alloc, refusal, errors),
        Err(Stop::ReadFailed) => end_without(alloc, errors, Status::ReadFailed, READ_LINE),
        Err(Stop::NoMemory(error)) => end_without(
            alloc,
            errors,
            Status::NoMemory(error),
            MEMORY_LINE,
        ),
    }
}

/// Writes the output.
fn write_output<K: Sink, E: Sink>(
    alloc: Global,
    output: ModeOutput,
    sink: &mut K,
    errors: &mut E,
) -> Outcome
    ensures { Writes
        (stream_change K.written K.faults sink.old sink.new)
        (stream_change E.written E.faults errors.old errors.new) (K.is_finished sink.new) result output }
{
    match write_all(sink, output.text.as_slice()) {
        Ok(()) => Outcome {
            status: Status::Done.number(),
            books: output.books,
            programs: output.programs,
            ran: output.ran,
        },
        Err(_) => end_without(alloc, errors, Status::WriteFailed, WRITE_LINE),
    }
}

/// Reports why the input is refused.
pub fn refuse<E: Sink>(alloc: Global, refusal: Refusal, errors: &mut E) -> Outcome
    ensures { Refuses (stream_change E.written E.faults errors.old errors.new) result refusal }
{
    if let Refusal::TooLong(limit) = &refusal {
        return end_without(alloc, errors, Status::InputRefused, limit.line());
    }
    match refusal_line(alloc, &refusal) {
        Ok(line) => end_without(alloc, errors, Status::InputRefused, line.as_slice()),
        Err(error) => end_without(alloc, errors, Status::NoMemory(error), MEMORY_LINE),
    }
}

/// Ends without an output: reports the line.
pub fn end_without<E: Sink>(alloc: Global, errors: &mut E, status: Status, line: &[u8]) -> Outcome
    ensures { Ends (stream_change E.written E.faults errors.old errors.new) result status line.now }
{
    let _ = write_all(errors, line);
    Outcome::empty(alloc, status)
}

//! What a mode makes of its input, and what a run gives its caller: text, status, books and programs.
ghost use Rattle.std.specs.Prelude.{◌≡◌, []};
ghost use Rattle.run_ending.specs.Statuses.{status_number};

use crate::status::Status;
use ccp_base::{Bytes, Sequence};
use flow_core::Book;
use reg_compiler::Builts;
use std::alloc::Global;

/// What a mode makes of its input.
#[derive(Drop)]
pub struct ModeOutput {
    pub text: Bytes,
    /// In `live` and `timeline` a book of each flow, in order; else none.
    pub books: Sequence<Book>,
    /// In `check` and `fold` the program with its code, under the number 0; in `live`, `campaign`, `soak`, `timeline`,
    /// `acks`, `shared-timeline`, `shared-acks` and the texts of driven flows all programs of the scenario; else none.
    pub programs: Builts,
    /// In `fold` how many instructions the program's code ran, one that faulted included; else 0.
    pub ran: u64,
}

impl ModeOutput {
    /// A text, without a book, a program or an instruction.
    pub fn text(alloc: Global, text: Bytes) -> ModeOutput
        ensures text { result.text ≡ text }
        ensures books { result.books ≡ [] }
        ensures programs { result.programs ≡ [] }
        ensures ran { result.ran ≡ 0 }
    {
        ModeOutput::with_programs(alloc, text, Builts::new(alloc))
    }

    /// A text and programs, without a book or an instruction.
    pub fn with_programs(alloc: Global, text: Bytes, programs: Builts) -> ModeOutput
        ensures text { result.text ≡ text }
        ensures books { result.books ≡ [] }
        ensures programs { result.programs ≡ programs }
        ensures ran { result.ran ≡ 0 }
    {
        ModeOutput::with_books(text, Sequence::new(alloc), programs)
    }

    /// A text, books and programs, without an instruction.
    pub fn with_books(text: Bytes, books: Sequence<Book>, programs: Builts) -> ModeOutput
        ensures text { result.text ≡ text }
        ensures books { result.books ≡ books }
        ensures programs { result.programs ≡ programs }
        ensures ran { result.ran ≡ 0 }
    {
        ModeOutput {
            text,
            books,
            programs,
            ran: 0,
        }
    }
}

/// How a run ended, and what it made.
#[derive(Drop)]
pub struct Outcome {
    /// The number of a `Status`.
    pub status: u8,
    /// At status 0 those of the mode's output, else none.
    pub books: Sequence<Book>,
    /// At status 0 those of the mode's output, else none.
    pub programs: Builts,
    /// At status 0 that of the mode's output, else 0.
    pub ran: u64,
}

impl Outcome {
    /// The end of a run with this status that keeps nothing.
    pub fn empty(alloc: Global, status: Status) -> Outcome
        ensures status { result.status ≡ status_number status }
        ensures books { result.books ≡ [] }
        ensures programs { result.programs ≡ [] }
        ensures ran { result.ran ≡ 0 }
    {
        Outcome {
            status: status.number(),
            books: Sequence::new(alloc),
            programs: Builts::new(alloc),
            ran: 0,
        }
    }
}

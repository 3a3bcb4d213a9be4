//! A flow of a live run, as its table and its workers see it.

ghost use Rattle.std.specs.Prelude.{◌≡◌, ◌↔◌, ◌<◌, true, false, IsTrue, IfOk, OnOk};
ghost use Rattle.flow_core.specs.Cells.{IsComplete};
ghost use Rattle.flow_table.specs.Hearings.{heard_as};
ghost use Rattle.flow_table.specs.WholeBooks.{IsWholeBook, flow_of};

use crate::flow::LockedFlow;
use crate::turn::make_letter;
use ccp_base::NoMemory;
use flow_core::{Book, Case, Cell, Ended};
use fold_machine::Acked;
use std::alloc::Global;
use worker_desk::Heard;

impl LockedFlow for Cell {
    ghost use Rattle.std.specs.Prelude.{◌≡◌, false, []};
    ghost use Rattle.flow_core.specs.Words.{is_complete};
    ghost use Rattle.flow_core.specs.Cells.{flow_at, world_at, IsComplete};
    ghost use Rattle.flow_core.specs.LettersLeft.{left_at};
    ghost use Rattle.flow_table.specs.WholeBooks.{IsWholeBook, flow_of};
    ghost use Rattle.flow_table.specs.Hearings.{hearing_at};
    ghost use Rattle.flow_table.specs.NextLetter.{HasNext};

    type Case = Case;

    type Book = Book;

    ghost case_of = { λ cell. cell.case };

    ghost number_of = { λ case. case.flow };

    ghost case_in = { λ book. book.case };

    ghost fresh = { λ case. record { case = case; word = [] } };

    ghost flow_in = { λ book. flow_of book };

    ghost HasHeard = { λ old new heard. (new, heard) ≡ hearing_at old };

    ghost IsDone = { λ cell. IsComplete cell };

    ghost IsLeft = { λ cell. is_complete (flow_at cell) (world_at cell) ≡ false };

    ghost letters = { λ cell. left_at cell };

    ghost HasNext = { λ old new. HasNext old new };

    ghost IsWhole = { λ book. IsWholeBook book };

    fn copy(alloc: Global, case: &Case) -> Result<Case, NoMemory> {
        Ok(case.copy(alloc)?)
    }

    fn open(alloc: Global, case: Case) -> Result<Cell, NoMemory> {
        Cell::new(alloc, case)
    }

    fn is_of(&self, case: &Case) -> bool {
        self.case().same(case)
    }

    fn number(&self) -> u32 {
        self.case().flow
    }

    fn hear(&mut self) -> Heard {
        match Cell::hear(self) {
            Ok(acked) => news_of(acked),
            Err(Ended) => Heard::Ended,
        }
    }

    fn is_done(&self) -> bool {
        self.is_complete()
    }

    fn make_next(&mut self, alloc: Global) -> Result<(), NoMemory> {
        make_letter(alloc, self)
    }

    fn finish(self) -> Book {
        whole_book(self)
    }
}

/// What the machine's answer to an acknowledgement means for a worker.
fn news_of(acked: Acked) -> Heard
    ensures { result ≡ heard_as acked }
{
    match acked {
        Acked::Reported => Heard::Reported,
        Acked::Faulted(_, _) => Heard::Faulted,
        Acked::Quiet | Acked::Held | Acked::Stopped => Heard::Quiet,
    }
}

/// The book of a flow whose word is complete.
// for the prover: here the clauses of `Cell::finish` become that of `IsWholeBook`, by a lemma
fn whole_book(cell: Cell) -> Book
    requires { IsComplete cell }
    ensures case { result.case ≡ cell.case }
    ensures flow { flow_of result ≡ cell }
    ensures whole { IsWholeBook result }
{
    cell.finish()
}

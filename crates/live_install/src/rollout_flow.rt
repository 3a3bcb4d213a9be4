//! A flow of a rollout, as its table and its workers see it.

ghost use Rattle.std.specs.Prelude.{◌≡◌, ◌↔◌, ◌<◌, true, false, IsTrue, IfOk, OnOk};
ghost use Rattle.open_flow.specs.OpenCells.{IsComplete};
ghost use Rattle.live_install.specs.Installing.{HasInstalled, HasChanged};
ghost use Rattle.live_install.specs.WholeBooks.{IsWhole, book_state};

use ccp_base::NoMemory;
use flow_table::LockedFlow;
use open_flow::{Entry, OpenBook, OpenCell, make_letter};
use scene_members::OpenCase;
use std::alloc::Global;
use worker_desk::Heard;

/// A flow of a rollout behind its lock.
// the trait and the cell are of crates beside each other, so the trait is that of a type of this crate
#[derive(Drop)]
pub(crate) struct RolloutFlow {
    pub(crate) cell: OpenCell,
}

impl RolloutFlow {
    /// Installs an entry if it is the next one, and says whether it was.
    pub(crate) fn install(&mut self, entry: Entry) -> bool
        ensures { HasInstalled self.old.cell self.new.cell entry result }
    {
        match self.cell.install(entry) {
            Ok(()) => true,
            Err(late) => {
                drop(late);
                false
            }
        }
    }

    /// Changes the flow to the next program if there is one, and says whether there was.
    pub(crate) fn change(&mut self) -> bool
        ensures { HasChanged self.old.cell self.new.cell result }
    {
        self.cell.change().is_ok()
    }
}

impl LockedFlow for RolloutFlow {
    ghost use Rattle.std.specs.Prelude.{◌≡◌, false};
    ghost use Rattle.open_flow.specs.OpenWords.{is_complete};
    ghost use Rattle.open_flow.specs.OpenCells.{world_at, IsComplete};
    ghost use Rattle.open_flow.specs.NextLetter.{letters_left};
    ghost use Rattle.live_install.specs.Hearings.{hearing_at};
    ghost use Rattle.live_install.specs.WholeBooks.{IsWhole};
    ghost use Rattle.live_install.specs.RolloutFlows.{HasNextLetter, case_of, flow_in, fresh_flow};

    type Case = OpenCase;

    type Book = OpenBook;

    ghost case_of = { λ flow. case_of flow };

    ghost number_of = { λ case. case.flow };

    ghost case_in = { λ book. book.case };

    ghost fresh = { λ case. fresh_flow case };

    ghost flow_in = { λ book. flow_in book };

    ghost HasHeard = { λ old new heard. (new.cell, heard) ≡ hearing_at old.cell };

    ghost IsDone = { λ flow. IsComplete flow.cell };

    ghost IsLeft = { λ flow. is_complete flow.cell.case (world_at flow.cell) ≡ false };

    ghost letters = { λ flow. letters_left flow.cell };

    ghost HasNext = { λ old new. HasNextLetter old new };

    ghost IsWhole = { λ book. IsWhole book };

    fn copy(alloc: Global, case: &OpenCase) -> Result<OpenCase, NoMemory> {
        case.copy(alloc)
    }

    fn open(alloc: Global, case: OpenCase) -> Result<RolloutFlow, NoMemory> {
        let cell = OpenCell::new(alloc, case)?;
        Ok(RolloutFlow { cell })
    }

    fn is_of(&self, case: &OpenCase) -> bool {
        self.cell.case().same(case)
    }

    fn number(&self) -> u32 {
        self.cell.case().flow
    }

    fn hear(&mut self) -> Heard {
        // A report or a fault of a rollout waits for no agent.
        match self.cell.hear() {
            Ok(_) => Heard::Quiet,
            Err(_) => Heard::Ended,
        }
    }

    fn is_done(&self) -> bool {
        self.cell.is_complete()
    }

    fn make_next(&mut self, alloc: Global) -> Result<(), NoMemory> {
        make_letter(alloc, &mut self.cell)
    }

    fn finish(self) -> OpenBook {
        whole_book(self.cell)
    }
}

/// The book of a flow whose word is complete.
// for the prover: here the clauses of `OpenCell::finish` become that of `IsWhole`, by a lemma
fn whole_book(cell: OpenCell) -> OpenBook
    requires { IsComplete cell }
    ensures case { result.case ≡ cell.case }
    ensures flow { book_state result ≡ cell }
    ensures whole { IsWhole result }
{
    cell.finish()
}

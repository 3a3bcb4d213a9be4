//! The next letter of a live run's incomplete word: an answer if due, else a taking, else an acknowledgement.
ghost use Rattle.std.specs.Prelude.{◌≡◌, ◌<◌, Ok, Some, None, true, false, length, OnOk};
ghost use Rattle.flow_core.specs.Words.{can_take, is_complete};
ghost use Rattle.flow_core.specs.Cells.{flow_at, world_at, out_at, with_letter};
ghost use Rattle.flow_table.specs.NextLetter.{IsNearer, next_at};

use agent_core::Ticket;
use agent_core::calls::answer;
use ccp_base::NoMemory;
use flow_core::{Cell, TakeFault};
use std::alloc::Global;

/// Makes one letter of a word that isn't complete: the answer to the ticket that is out, or else a taking, or else an
/// acknowledgement.
pub(crate) fn make_letter(alloc: Global, cell: &mut Cell) -> Result<(), NoMemory>
    requires { is_complete (flow_at cell.old) (world_at cell.old) ≡ false }
    ensures nearer { OnOk result (IsNearer cell.old cell.new) }
    ensures order { OnOk result (cell.new ≡ with_letter (next_at cell.old) cell.old) }
{
    if let Some(ticket) = cell.out() {
        settle(cell, ticket);
        return Ok(());
    }
    if take(alloc, cell)? {
        return Ok(());
    }
    acknowledge(cell);
    Ok(())
}

/// Applies the answer to the ticket that is out.
fn settle(cell: &mut Cell, ticket: Ticket)
    requires { out_at cell.old ≡ Some ticket }
    ensures nearer { IsNearer cell.old cell.new }
    ensures order { cell.new ≡ with_letter (next_at cell.old) cell.old }
{
    let Ok(()) = cell.settle(answer(ticket)) else {
        unreachable!()
    };
}

/// Takes a ticket if one can be taken, and says whether it did.
fn take(alloc: Global, cell: &mut Cell) -> Result<bool, NoMemory>
    requires { out_at cell.old ≡ None }
    ensures made { result ≡ Ok true → IsNearer cell.old cell.new }
    ensures order { result ≡ Ok true → cell.new ≡ with_letter (next_at cell.old) cell.old }
    ensures not { result ≡ Ok false → (can_take (world_at cell.old) ≡ false) × (cell.new ≡ cell.old) }
{
    match cell.take(alloc) {
        Ok(_) => Ok(true),
        Err(TakeFault::NotYet) => Ok(false),
        Err(TakeFault::Out(_)) => Ok(false),
        Err(TakeFault::NoMemory(error)) => Err(error),
    }
}

/// Takes the next acknowledgement.
fn acknowledge(cell: &mut Cell)
    requires acks { length (world_at cell.old).acks < cell.old.case.acks }
    requires still { (out_at cell.old ≡ None) × (can_take (world_at cell.old) ≡ false) }
    ensures nearer { IsNearer cell.old cell.new }
    ensures order { cell.new ≡ with_letter (next_at cell.old) cell.old }
{
    let Ok(_) = cell.hear() else { unreachable!() };
}

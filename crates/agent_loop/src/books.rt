//! The books of a live run's flows, made once the work of each of their workers is done.
ghost use Rattle.std.specs.Prelude.{IfOk, length, map};
ghost use Rattle.flow_table.specs.Led.{AreLedTo};
ghost use Rattle.flow_table.specs.NextLetter.{HasNext};
ghost use Rattle.flow_table.specs.WholeBooks.{flow_of};
ghost use Rattle.agent_loop.specs.Crews.{HasWorked};
ghost use Rattle.agent_loop.specs.LiveBooks.{AreBooksOf, case_of};

use crate::Books;
use crate::crew::Crew;
use ccp_base::{NoMemory, Sequence, Workers};
use flow_core::Cell;
use flow_table::make_books;
use std::alloc::Global;

/// The books of flows, in order, once the work of each of their workers is done: each has the history that the workers
/// left, with the caller's letters after it.
pub(crate) fn books(
    alloc: Global,
    cells: Sequence<Cell>,
    datapaths: Workers,
    agents: Workers,
    crew: Crew,
) -> Result<Books, NoMemory>
    requires { HasWorked crew datapaths.count agents.count (length (map case_of cells)) }
    ensures books { IfOk result (λ books. AreBooksOf (map case_of cells) books) }
    ensures led { IfOk result (λ books. AreLedTo HasNext cells (map flow_of books)) }
{
    // for the contract alone: the books are made once the crew's work is done
    drop(crew);
    make_books(alloc, cells)
}

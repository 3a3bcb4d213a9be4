//! The call of a live run: workers of both kinds run the flow of each case, and each flow has its book.
ghost use Rattle.std.specs.Prelude.{IfOk};
ghost use Rattle.agent_loop.specs.LiveBooks.{AreBooksOf};

use crate::Books;
use crate::books::books;
use crate::workers::work;
use ccp_base::{Gate, NoMemory, Workers};
use flow_core::Cell;
use flow_table::{FlowTable, WorkerCounts};
use std::alloc::Global;
use std::sync::Wait;
use std::thread::Threads;

/// One book a case, in order, whatever the numbers of workers, and in whatever order threads take the flows' locks:
/// each book has its case and a word that is legal and complete for it. No clause says which such word it is.
///
/// Datapath worker `d` takes the acknowledgements of the flows `f` with `f mod datapaths = d`, one of each in turn. It
/// passes the gate at `BeforeAck` and `AfterAck` without a lock and at `InAck` with the flow's. Agent workers, whose
/// numbers come after these, get a nudge if a report or a fault waits. For each nudge one of them takes a ticket,
/// passes `AfterTake`, works out the answer without a lock, settles it and passes `AfterSettle`. The caller does the
/// work of a worker whose thread can't be started, that of an agent worker once the datapath workers are done, and at
/// the end what they all leave.
pub fn live<R: Threads + Wait + Sync, G: Gate + Sync>(
    rt: &R,
    alloc: Global,
    table: FlowTable<Cell>,
    datapaths: Workers,
    agents: Workers,
    gate: &G,
) -> Result<Books, NoMemory>
    ensures { IfOk result (λ books. AreBooksOf table books) }
{
    let workers = WorkerCounts { datapaths, agents };
    let crew = work(rt, alloc, &table, workers, gate)?;
    books(alloc, table.close(alloc)?, datapaths, agents, crew)
}

//! The call of a rollout: datapath workers and installers run the flow of each case, and each has its book.
ghost use Rattle.std.specs.Prelude.{◌≡◌, ◌≤◌, IfOk, length, map};
ghost use Rattle.std.specs.List.{All};
ghost use Rattle.ccp_base.specs.Limits.{most_flows};
ghost use Rattle.scene_members.specs.OpenCases.{AreOpenFlowsFrom};
ghost use Rattle.live_install.specs.WholeBooks.{IsWhole, case_in};

use crate::books::books;
use crate::workers::run_workers;
use ccp_base::{Gate, NoMemory, Workers};
use flow_table::{FlowTable, WorkerCounts};
use open_flow::OpenBooks;
use scene_members::OpenCases;
use std::alloc::Global;
use std::sync::Wait;
use std::thread::Threads;

/// One book a case, in order, whatever the numbers of workers, and in whatever order threads take the flows' locks:
/// each book has its case, a word that is legal and complete for it, and the state after it, read over the sources of
/// the texts. No clause says which such word it is. There are at most 64 cases, in the order of their flows' numbers.
///
/// Datapath worker `d` takes the acknowledgements of the flows `f` with `f mod datapaths = d`, one of each in turn. It
/// passes the gate at `BeforeAck` and `AfterAck` without a lock and at `InAck` with the flow's. Installer `a`, whose
/// worker number is `datapaths + a`, builds the texts of the flows `f` with `f mod agents = a`, without a lock,
/// installs each in the flow's library and passes `AfterTake`, and changes the flow to it, if it is a program, and
/// passes `AfterSettle`. What they leave is done by the caller at the end, and so is the work of a worker whose thread
/// can't be started.
#[tactic(auto, using(crate::proofs::NumberLemmas::open_flows_numbered))]
pub fn rollout<R: Threads + Wait + Sync, G: Gate + Sync>(
    rt: &R,
    alloc: Global,
    cases: OpenCases,
    datapaths: Workers,
    agents: Workers,
    gate: &G,
) -> Result<OpenBooks, NoMemory>
    requires few { length cases ≤ most_flows }
    requires numbered { AreOpenFlowsFrom 0 cases }
    // The books are those of the cases, and each has the state after a legal and complete word.
    ensures cases { IfOk result (λ books. map case_in books ≡ cases) }
    ensures whole { IfOk result (λ books. All IsWhole books) }
{
    let table = FlowTable::new(alloc, cases)?;
    let workers = WorkerCounts { datapaths, agents };
    let crew = run_workers(rt, alloc, &table, workers, gate)?;
    books(alloc, table.close(alloc)?, datapaths, agents, crew)
}

//! The public calls: the row of one case, and the rows, books or acknowledgements of many.
ghost use Rattle.std.specs.Prelude.{◌≡◌, ◌≤◌, true, map, length, IfOk};
ghost use Rattle.std.specs.List.{All};
ghost use Rattle.ccp_base.specs.Limits.{most_cases};
ghost use Rattle.flow_core.specs.Readings.{over_codes};
ghost use Rattle.flow_core.specs.Words.{world, legal, is_complete};
ghost use Rattle.flow_core.specs.BookFlows.{BookFlowState};
ghost use Rattle.flow_core.specs.declared.book.Book.{Book};
ghost use Rattle.campaign_core.specs.CampaignWord.{plan};
ghost use Rattle.campaign_core.specs.CampaignRow.{case_row};
ghost use Rattle.campaign_gate.specs.CampaignBooks.{acks_of_case, IsCampaignBook, AreCampaignBooks, HasSourcePlan};
ghost use Rattle.campaign_gate.specs.CaseRuns.{book_flow_of_case};
ghost use Rattle.campaign_gate.specs.LiftedRow.{RowHoldsForSources};

use crate::case_result::CaseResult;
use crate::queue::Queue;
use crate::workers::make_by_workers;
use campaign_core::{CaseAcks, Cases, Row, Rows};
use ccp_base::{Acks, Gate, NoMemory, Sequence, Workers};
use flow_core::{Book, BookFlow, Case};
use std::alloc::Global;
use std::marker::Brand;
use std::thread::Threads;

/// Runs a case along its campaign word, which is legal and complete, and gives its row. For all programs that the
/// case's codes simulate, this is the row read over their sources.
pub fn run_case(alloc: Global, case: Case) -> Result<Row, NoMemory>
    ensures row { IfOk result (λ row. row ≡ case_row case) }
    ensures legal { legal (over_codes case) case.link (plan case) ≡ true }
    ensures complete { is_complete (over_codes case) (world (over_codes case) case.link (plan case)) ≡ true }
    ensures lifted { RowHoldsForSources case }
{
    Row::make(alloc, case)
}

/// The rows of at most 1,024 cases, in their order. They don't depend on `workers`. Worker `w` runs the cases `i` with
/// `i mod workers = w`, in order, and drops each flow after its case. It passes `gate` at `InCase` before a case and at
/// `AfterCase` after it. If a thread can't be started, the caller does its work. The row of each case is that of its
/// programs.
pub fn rows<R: Threads + Sync, G: Gate + Sync>(
    rt: &R,
    alloc: Global,
    cases: Cases,
    workers: Workers,
    gate: &G,
) -> Result<Rows, NoMemory>
    requires few { length cases ≤ most_cases }
    ensures rows { IfOk result (λ rows. rows ≡ map case_row cases) }
    ensures lifted { (case : Case) → RowHoldsForSources case }
{
    make_by_workers::<Brand, Row, R, G>(rt, alloc, cases.as_slice(), workers, gate)
}

/// The books of a campaign in the order of their cases.
pub type Books = Sequence<Book>;

/// The books of flows that are after their campaign words.
fn books_of(alloc: Global, flows: Sequence<BookFlow>) -> Result<Books, NoMemory>
    requires { All (λ (flow : BookFlowState). flow ≡ book_flow_of_case flow.bare.case) flows }
    ensures cases { IfOk result (λ books. map (λ (book : Book). book.case) books
        ≡ map (λ (flow : BookFlowState). flow.bare.case) flows) }
    ensures books { IfOk result (All IsCampaignBook) }
{
    let mut flows = Queue::from_vec(flows.into_vec());
    let mut books = Books::new(alloc);
    while let Some(flow) = flows.take() {
        books.push(book_of(flow))?;
    }
    Ok(books)
}

/// The book of a flow that is after its campaign word. It is separate since the proof of its caller cites its clauses.
fn book_of(flow: BookFlow) -> Book
    requires { flow ≡ book_flow_of_case flow.bare.case }
    ensures case { result.case ≡ flow.bare.case }
    ensures book { IsCampaignBook result }
{
    flow.finish()
}

/// The book of each of at most 1,024 cases after its campaign word, in the order of the cases. The workers are those of
/// `rows`: the same number of them runs the same cases and passes the same gates.
pub fn books<R: Threads + Sync, G: Gate + Sync>(
    rt: &R,
    alloc: Global,
    cases: Cases,
    workers: Workers,
    gate: &G,
) -> Result<Books, NoMemory>
    requires few { length cases ≤ most_cases }
    ensures books { IfOk result (λ books. AreCampaignBooks cases books) }
    ensures source { (case : Case) → HasSourcePlan case }
{
    let flows = make_by_workers::<Brand, BookFlow, R, G>(
        rt,
        alloc,
        cases.as_slice(),
        workers,
        gate,
    )?;
    books_of(alloc, flows)
}

/// The acknowledgements that each of at most 1,024 cases gets on its campaign word, in the order of the cases. The
/// workers are those of `rows`: the same number of them runs the same cases and passes the same gates.
pub fn acks<R: Threads + Sync, G: Gate + Sync>(
    rt: &R,
    alloc: Global,
    cases: Cases,
    workers: Workers,
    gate: &G,
) -> Result<CaseAcks, NoMemory>
    requires few { length cases ≤ most_cases }
    ensures acks { IfOk result (λ acks. acks ≡ map acks_of_case cases) }
    ensures source { (case : Case) → HasSourcePlan case }
{
    make_by_workers::<Brand, Acks, R, G>(rt, alloc, cases.as_slice(), workers, gate)
}

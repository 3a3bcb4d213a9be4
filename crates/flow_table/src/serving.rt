//! The work of datapath workers, begun.

ghost use Rattle.std.specs.Prelude.{◌≡◌, map, IfOk, length};
ghost use Rattle.worker_desk.specs.Works.{duty_of, duties};
ghost use Rattle.flow_table.specs.Duties.{duty};

use crate::datapath::run_datapath_worker;
use crate::flow::LockedFlow;
use crate::nudges::Nudges;
use crate::table::FlowTable;
use ccp_base::{Gate, NoMemory, Workers};
use std::alloc::Global;
use std::sync::Wait;
use std::thread::{Scope, Threads};
use worker_desk::{DatapathShare, Duty, Served, Work};

/// Begins the work of the datapath workers, in order.
pub fn begin_serving<
    's,
    'e,
    F: LockedFlow + Send + 'e,
    N: Nudges + Send + 'e,
    R: Threads + Wait + Sync,
    G: Gate + Sync,
>(
    scope: &'s Scope<'s, &'e ()>,
    rt: &'e R,
    alloc: Global,
    table: &'e FlowTable<F>,
    datapaths: Workers,
    nudges: &N,
    gate: &'e G,
) -> Result<Vec<Work<DatapathShare>>, NoMemory>
where
    F::Case: Sync,
    F::Book: Send,
    ensures { IfOk result (λ all. map duty_of all.items
        ≡ duties (duty datapaths.count (length table.now)) datapaths.count) }
{
    let mut works = Vec::new(alloc);
    for worker in 0..datapaths.count() {
        works.push(begin(scope, rt, table, datapaths, worker, nudges, gate)?)?;
    }
    Ok(works)
}

/// Begins the work of a datapath worker, with its own sender of nudges. If no thread can be started for it, it is done
/// here.
fn begin<
    's,
    'e,
    F: LockedFlow + Send + 'e,
    N: Nudges + Send + 'e,
    R: Threads + Wait + Sync,
    G: Gate + Sync,
>(
    scope: &'s Scope<'s, &'e ()>,
    rt: &'e R,
    table: &'e FlowTable<F>,
    datapaths: Workers,
    worker: u32,
    nudges: &N,
    gate: &'e G,
) -> Result<Work<DatapathShare>, NoMemory>
where
    F::Case: Sync,
    F::Book: Send,
    ensures { IfOk result (λ work. duty_of work ≡ duty datapaths.count (length table.now) worker) }
{
    let own = nudges.share()?;
    let promise = Duty {
        worker,
        flows: table.flows(),
        share: DatapathShare {
            workers: datapaths.count(),
        },
    };
    let started = scope.spawn_with(
        promise,
        move || -> Served
            ensures { result ≡ duty datapaths.count (length table.entry.now) worker }
        { run_datapath_worker(rt, table, datapaths, worker, &own, gate) },
    );
    match started {
        Ok(handle) => Ok(Work::Thread(handle)),
        Err(_) => Ok(Work::Here(run_datapath_worker(rt, table, datapaths, worker, nudges, gate))),
    }
}

//! The threads of datapath workers, begun.

ghost use Rattle.std.specs.Prelude.{◌≡◌, map, IfOk, length};
ghost use Rattle.worker_desk.specs.Works.{duty_of, duties};
ghost use Rattle.flow_table.specs.Duties.{duty};

use crate::rollout_flow::RolloutFlow;
use ccp_base::{Gate, NoMemory, Workers};
use flow_table::{FlowTable, NoNudges, run_datapath_worker};
use std::alloc::Global;
use std::sync::Wait;
use std::thread::{Scope, Threads};
use worker_desk::{DatapathShare, Duty, Served, Work};

/// Begins the work of the datapath workers, in order.
pub(crate) fn begin_all<'s, 'e, R: Threads + Wait + Sync, G: Gate + Sync>(
    scope: &'s Scope<'s, &'e ()>,
    rt: &'e R,
    alloc: Global,
    table: &'e FlowTable<RolloutFlow>,
    datapaths: Workers,
    gate: &'e G,
) -> Result<Vec<Work<DatapathShare>>, NoMemory>
    ensures { IfOk result (λ all. map duty_of all.items
        ≡ duties (duty datapaths.count (length table.now)) datapaths.count) }
{
    let mut works = Vec::new(alloc);
    for worker in 0..datapaths.count() {
        let work = begin(scope, rt, table, datapaths, worker, gate);
        works.push(work)?;
    }
    Ok(works)
}

/// Begins the work of a datapath worker. If no thread can be started for it, it is done here.
fn begin<'s, 'e, R: Threads + Wait + Sync, G: Gate + Sync>(
    scope: &'s Scope<'s, &'e ()>,
    rt: &'e R,
    table: &'e FlowTable<RolloutFlow>,
    datapaths: Workers,
    worker: u32,
    gate: &'e G,
) -> Work<DatapathShare>
    ensures { duty_of result ≡ duty datapaths.count (length table.now) worker }
{
    let promise = Duty {
        worker,
        flows: table.flows(),
        share: DatapathShare {
            workers: datapaths.count(),
        },
    };
    let started = scope.spawn_with(
        promise,
        move || -> Served
            ensures { result ≡ duty datapaths.count (length table.entry.now) worker }
        { run_datapath_worker(rt, table, datapaths, worker, &NoNudges, gate) },
    );
    match started {
        Ok(handle) => Work::Thread(handle),
        Err(_) => Work::Here(run_datapath_worker(rt, table, datapaths, worker, &NoNudges, gate)),
    }
}

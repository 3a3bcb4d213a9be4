//! The threads of a rollout: datapath workers and installers on a table of flows, until their work is done.
ghost use Rattle.std.specs.Prelude.{IfOk, length};
ghost use Rattle.live_install.specs.Crews.{HasWorked};

use crate::crew::Crew;
use crate::rollout_flow::RolloutFlow;
use crate::{datapath_threads, installer_threads};
use ccp_base::{Gate, NoMemory};
use flow_table::{FlowTable, WorkerCounts};
use std::alloc::Global;
use std::sync::Wait;
use std::thread;
use std::thread::Threads;
use worker_desk::end_all;

/// The workers over the flows of a table, until the work of each of them is done. That of a worker for which no thread
/// can be started is done here.
pub(crate) fn run_workers<R: Threads + Wait + Sync, G: Gate + Sync>(
    rt: &R,
    alloc: Global,
    table: &FlowTable<RolloutFlow>,
    workers: WorkerCounts,
    gate: &G,
) -> Result<Crew, NoMemory>
    ensures { IfOk result (λ crew. HasWorked crew workers.datapaths.count workers.agents.count (length table.now)) }
{
    thread::scope(
        thread::scope_env(),
        rt,
        move |scope| -> Result<Crew, NoMemory>
            ensures { IfOk result (λ crew.
                HasWorked crew workers.datapaths.count workers.agents.count (length table.entry.now)) }
        {
            let works = installer_threads::begin_all(scope, rt, alloc, table, workers, gate)?;
            let servings = datapath_threads::begin_all(
                scope,
                rt,
                alloc,
                table,
                workers.datapaths,
                gate,
            )?;
            let equipped = end_all(rt, alloc, works)?;
            let served = end_all(rt, alloc, servings)?;
            Ok(Crew { served, equipped })
        },
    )
}

//! The threads of installers, begun.

ghost use Rattle.std.specs.Prelude.{◌≡◌, ◌<◌, map, IfOk, length};
ghost use Rattle.worker_desk.specs.Works.{duty_of, duties};
ghost use Rattle.live_install.specs.Crews.{install_duty};

use crate::installer::run_installer;
use crate::rollout_flow::RolloutFlow;
use ccp_base::{Gate, NoMemory};
use flow_table::{FlowTable, WorkerCounts};
use std::alloc::Global;
use std::sync::Wait;
use std::thread::{Scope, Threads};
use worker_desk::{Duty, Equipped, InstallerShare, Work};

/// Begins the work of the installers, in order.
pub(crate) fn begin_all<'s, 'e, R: Threads + Wait + Sync, G: Gate + Sync>(
    scope: &'s Scope<'s, &'e ()>,
    rt: &'e R,
    alloc: Global,
    table: &'e FlowTable<RolloutFlow>,
    workers: WorkerCounts,
    gate: &'e G,
) -> Result<Vec<Work<InstallerShare>>, NoMemory>
    ensures { IfOk result (λ all. map duty_of all.items
        ≡ duties (install_duty workers.datapaths.count workers.agents.count (length table.now)) workers.agents.count) }
{
    let mut works = Vec::new(alloc);
    for agent in 0..workers.agents.count() {
        let work = begin(scope, rt, alloc, table, workers, agent, gate);
        works.push(work)?;
    }
    Ok(works)
}

/// Begins the work of an installer. If no thread can be started for it, it is done here.
fn begin<'s, 'e, R: Threads + Wait + Sync, G: Gate + Sync>(
    scope: &'s Scope<'s, &'e ()>,
    rt: &'e R,
    alloc: Global,
    table: &'e FlowTable<RolloutFlow>,
    workers: WorkerCounts,
    agent: u32,
    gate: &'e G,
) -> Work<InstallerShare>
    requires { agent < workers.agents.count }
    ensures { duty_of result
        ≡ install_duty workers.datapaths.count workers.agents.count (length table.now) agent }
{
    let promise = Duty {
        worker: workers.datapaths.count() + agent,
        flows: table.flows(),
        share: InstallerShare {
            first: agent,
            workers: workers.agents.count(),
        },
    };
    let started = scope.spawn_with(
        promise,
        move || -> Equipped
            requires { agent < workers.agents.count }
            ensures { result
                ≡ install_duty workers.datapaths.count workers.agents.count (length table.entry.now) agent }
        { run_installer(rt, alloc, table, workers, agent, gate) },
    );
    match started {
        Ok(handle) => Work::Thread(handle),
        Err(_) => Work::Here(run_installer(rt, alloc, table, workers, agent, gate)),
    }
}

//! The work of an installer in a rollout, over the steps of its share of the flows.
ghost use Rattle.std.specs.Prelude.{◌≡◌, ◌<◌, length};
ghost use Rattle.live_install.specs.Crews.{install_duty};

use crate::install_desk::InstallDesk;
use crate::rollout_flow::RolloutFlow;
use ccp_base::Gate;
use flow_table::{FlowTable, WorkerCounts};
use std::alloc::Global;
use std::sync::Wait;
use worker_desk::Equipped;

/// The work of an installer of a rollout.
pub(crate) fn run_installer<R: Wait, G: Gate>(
    rt: &R,
    alloc: Global,
    table: &FlowTable<RolloutFlow>,
    workers: WorkerCounts,
    agent: u32,
    gate: &G,
) -> Equipped
    requires { agent < workers.agents.count }
    ensures { result ≡ install_duty workers.datapaths.count workers.agents.count (length table.now) agent }
{
    let mut desk = InstallDesk {
        rt,
        alloc,
        table,
        gate,
        held: None,
    };
    let worker = workers.datapaths.count() + agent;
    worker_desk::run_installer(&mut desk, worker, agent, workers.agents.count())
}

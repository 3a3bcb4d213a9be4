//! The work of agent workers, begun and ended.

ghost use Rattle.std.specs.Prelude.{◌≡◌, map, IfOk, length};
ghost use Rattle.agent_loop.specs.Crews.{agent_duty_of, agent_duty, agent_duties};

use crate::agent::run_agent_worker;
use ccp_base::{Gate, NoMemory};
use crossbeam_channel::Receiver;
use flow_core::Cell;
use flow_table::{FlowTable, WorkerCounts};
use std::alloc::Global;
use std::sync::Wait;
use std::thread::{PromisedHandle, Scope, Threads};
use worker_desk::{AgentShare, Attended, Duty};

/// The work of an agent worker, which goes on in a thread or is left to the end.
#[derive(Drop)]
pub(crate) enum Attending {
    /// In a thread.
    Thread(PromisedHandle<Attended, Duty<AgentShare>>),
    /// Left to the end, with the worker's number.
    Left(u32),
}

/// Begins the work of the agent workers, in order. Their numbers come after those of the datapath workers.
pub(crate) fn begin_all<'s, 'e, R: Threads + Wait + Sync, G: Gate + Sync>(
    scope: &'s Scope<'s, &'e ()>,
    rt: &'e R,
    alloc: Global,
    table: &'e FlowTable<Cell>,
    workers: WorkerCounts,
    receiver: &Receiver<u32, Global>,
    gate: &'e G,
) -> Result<Vec<Attending>, NoMemory>
    ensures { IfOk result (λ all. map (agent_duty_of (length table.now)) all.items
        ≡ agent_duties workers.datapaths.count (length table.now) workers.agents.count) }
{
    let mut attendings = Vec::new(alloc);
    for agent in 0..workers.agents.count() {
        let worker = workers.datapaths.count() + agent;
        attendings.push(begin(scope, rt, alloc, table, worker, receiver, gate)?)?;
    }
    Ok(attendings)
}

/// Begins the work of an agent worker. If no thread can be started for it, it is left to the end.
fn begin<'s, 'e, R: Threads + Wait + Sync, G: Gate + Sync>(
    scope: &'s Scope<'s, &'e ()>,
    rt: &'e R,
    alloc: Global,
    table: &'e FlowTable<Cell>,
    worker: u32,
    receiver: &Receiver<u32, Global>,
    gate: &'e G,
) -> Result<Attending, NoMemory>
    ensures { IfOk result (λ attending.
        agent_duty_of (length table.now) attending ≡ agent_duty (length table.now) worker) }
{
    let nudges = receiver.clone()?;
    let promise = Duty {
        worker,
        flows: table.flows(),
        share: AgentShare,
    };
    let started = scope.spawn_with(
        promise,
        move || -> Attended
            ensures { result ≡ agent_duty (length table.entry.now) worker }
        { run_agent_worker(rt, alloc, table, worker, &nudges, gate) },
    );
    match started {
        Ok(handle) => Ok(Attending::Thread(handle)),
        Err(_) => Ok(Attending::Left(worker)),
    }
}

/// The end of an agent worker's work, which is done here if it was left to the end.
fn end<R: Threads + Wait, G: Gate>(
    rt: &R,
    alloc: Global,
    table: &FlowTable<Cell>,
    attending: Attending,
    receiver: &Receiver<u32, Global>,
    gate: &G,
) -> Attended
    ensures { result ≡ agent_duty_of (length table.now) attending }
{
    match attending {
        Attending::Thread(handle) => handle.join(rt),
        Attending::Left(worker) => run_agent_worker(rt, alloc, table, worker, receiver, gate),
    }
}

/// The ends of the agent workers' work, in order.
pub(crate) fn end_all<R: Threads + Wait, G: Gate>(
    rt: &R,
    alloc: Global,
    table: &FlowTable<Cell>,
    attendings: Vec<Attending>,
    receiver: &Receiver<u32, Global>,
    gate: &G,
) -> Result<Vec<Attended>, NoMemory>
    ensures { IfOk result (λ all. all.items ≡ map (agent_duty_of (length table.now)) attendings.items) }
{
    let mut left = attendings;
    let mut all = Vec::new(alloc);
    while !left.is_empty() {
        let attending = left.remove(0);
        all.push(end(rt, alloc, table, attending, receiver, gate))?;
    }
    Ok(all)
}

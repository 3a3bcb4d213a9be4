//! The threads of a live run: datapath and agent workers on a table of flows, until their work is done.
ghost use Rattle.std.specs.Prelude.{IfOk, length};
ghost use Rattle.agent_loop.specs.Crews.{HasWorked};

use crate::attending;
use crate::crew::Crew;
use crate::nudge_sender::NudgeSender;
use ccp_base::{Gate, NoMemory};
use flow_core::Cell;
use flow_table::{FlowTable, WorkerCounts, begin_serving};
use std::alloc::Global;
use std::sync::Wait;
use std::thread;
use std::thread::Threads;
use worker_desk::end_all;

/// The workers over the flows of a table, until the work of each of them is done. That of a datapath worker for which
/// no thread can be started is done here at once, and that of such an agent worker once the datapath workers are done.
pub(crate) fn work<R: Threads + Wait + Sync, G: Gate + Sync>(
    rt: &R,
    alloc: Global,
    table: &FlowTable<Cell>,
    workers: WorkerCounts,
    gate: &G,
) -> Result<Crew, NoMemory>
    ensures { IfOk result (λ crew. HasWorked crew workers.datapaths.count workers.agents.count (length table.now)) }
{
    let (sender, receiver) = crossbeam_channel::unbounded::<u32, Global>(alloc)?;
    thread::scope(
        thread::scope_env(),
        rt,
        move |scope| -> Result<Crew, NoMemory>
            ensures { IfOk result (λ crew.
                HasWorked crew workers.datapaths.count workers.agents.count (length table.entry.now)) }
        {
            let attendings = attending::begin_all(
                scope, rt, alloc, table, workers, &receiver, gate,
            )?;
            let nudges = NudgeSender { sender };
            let servings = begin_serving(
                scope,
                rt,
                alloc,
                table,
                workers.datapaths,
                &nudges,
                gate,
            )?;
            let served = end_all(rt, alloc, servings)?;
            // Agent workers end when the last sender is gone.
            drop(nudges);
            let attended = attending::end_all(rt, alloc, table, attendings, &receiver, gate)?;
            Ok(Crew { served, attended })
        },
    )
}

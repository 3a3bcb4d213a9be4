//! The work of an agent worker in a live run, from the first flow number that it receives to the last.
ghost use Rattle.std.specs.Prelude.{◌≡◌, length};
ghost use Rattle.agent_loop.specs.Crews.{agent_duty};

use crate::nudged_desk::NudgedDesk;
use ccp_base::Gate;
use crossbeam_channel::Receiver;
use flow_core::Cell;
use flow_table::FlowTable;
use std::alloc::Global;
use std::sync::Wait;
use worker_desk::Attended;

/// The work of an agent worker of a live run.
pub(crate) fn run_agent_worker<R: Wait, G: Gate>(
    rt: &R,
    alloc: Global,
    table: &FlowTable<Cell>,
    worker: u32,
    nudges: &Receiver<u32, Global>,
    gate: &G,
) -> Attended
    ensures { result ≡ agent_duty (length table.now) worker }
{
    let mut desk = NudgedDesk {
        rt,
        alloc,
        table,
        nudges,
        gate,
        held: None,
        left: u64::MAX,
    };
    worker_desk::run_agent_worker(&mut desk, worker)
}

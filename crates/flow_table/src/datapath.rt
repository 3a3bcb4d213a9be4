//! The work of a datapath worker over a table of flows.

ghost use Rattle.std.specs.Prelude.{◌≡◌, ◌<◌, length};
ghost use Rattle.flow_table.specs.Duties.{duty};

use crate::flow::LockedFlow;
use crate::flow_desk::FlowDesk;
use crate::nudges::Nudges;
use crate::table::FlowTable;
use ccp_base::{Gate, Workers};
use std::sync::Wait;
use worker_desk::Served;

/// The work of a datapath worker, one of `datapaths`.
pub fn run_datapath_worker<F: LockedFlow, N: Nudges, R: Wait, G: Gate>(
    rt: &R,
    table: &FlowTable<F>,
    datapaths: Workers,
    worker: u32,
    nudges: &N,
    gate: &G,
) -> Served
    ensures { result ≡ duty datapaths.count (length table.now) worker }
{
    let mut desk = FlowDesk {
        rt,
        table,
        nudges,
        gate,
        held: None,
        left: u64::MAX,
    };
    worker_desk::run_datapath_worker(&mut desk, worker, datapaths.count())
}

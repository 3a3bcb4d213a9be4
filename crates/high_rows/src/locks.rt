//! That each flow has its own lock.
use ccp_base::Sequence;
use flow_core::Cell;
use flow_table::FlowTable;
use scenario_json::SceneMode;
use scenario_json::calls::scenario;
use std::alloc::Global;
use std::process::Abort;
use std::sync::Wait;
use std::test::Fail;

/// The table of a scenario's flows.
#[tactic(auto, using(ccp_run::proofs::LiveLemmas::flows_numbered))]
fn table(alloc: Global, text: &[u8]) -> Result<FlowTable<Cell>, Fail> {
    let scene = scenario(alloc, text, SceneMode::Live)?;
    Ok(FlowTable::new(alloc, scene.cases)?)
}

/// The flow of a cell and how many of its acknowledgements are in.
fn flow_and_acks(cells: &Sequence<Cell>, place: usize) -> Option<(u32, u32)> {
    let cell = cells.as_slice().get(place)?;
    Some((cell.case().flow, cell.acks()))
}

/// Takes an acknowledgement of this flow under its lock.
fn acknowledge<R: Abort + Wait>(rt: &R, table: &FlowTable<Cell>, flow: u32) {
    let flows = table.flows();
    assert!(rt; flow < flows);
    let mut guard = table.lock(rt, flow);
    let acked = guard.hear();
    drop(guard);
    assert!(rt; acked.is_ok());
}

/// At this place stands the flow of its number, with this many acknowledgements.
fn has_acks(rt: &impl Abort, cells: &Sequence<Cell>, place: u32, acks: u32) {
    assert!(rt; flow_and_acks(cells, place as usize) == Some((place, acks)));
}

/// A scenario of 63 flows of Reno's with 64 acknowledgements, and a last one with 65,536.
fn many(alloc: Global) -> Result<Vec<u8>, Fail> {
    let mut text = Vec::new(alloc);
    text.extend_from_slice(b"{\"version\":1,\"traces\":{\"t\":\"10\\n\"},\"cases\":[")?;
    for _ in 0..63 {
        text.extend_from_slice(
            b"{\"name\":\"a\",\"agent\":\"reno\",\"trace\":\"t\",\"mss\":1448,\"queue\":10,\"delay_us\":20000,\"timeout_us\":1000000,\"acks\":64},",
        )?;
    }
    text.extend_from_slice(
        b"{\"name\":\"a\",\"agent\":\"reno\",\"trace\":\"t\",\"mss\":1448,\"queue\":10,\"delay_us\":20000,\"timeout_us\":1000000,\"acks\":65536}]}",
    )?;
    Ok(text)
}

/// The table of those flows.
fn many_flows(alloc: Global) -> Result<FlowTable<Cell>, Fail> {
    let text = many(alloc)?;
    table(alloc, text.as_slice())
}

/// Takes acknowledgements of this flow.
fn acknowledge_times<R: Abort + Wait>(rt: &R, table: &FlowTable<Cell>, flow: u32, times: u32) {
    for _ in 0..times {
        acknowledge(rt, table, flow);
    }
}

/// Takes as many acknowledgements of each flow as its number says, and all of flow 63.
fn acknowledge_each<R: Abort + Wait>(rt: &R, table: &FlowTable<Cell>) {
    for flow in 0..63 {
        acknowledge_times(rt, table, flow, flow);
    }
    acknowledge_times(rt, table, 63, 65_536);
}

/// Each flow has as many acknowledgements as its number says, and flow 63 has all.
fn have_each(rt: &impl Abort, cells: &Sequence<Cell>) {
    for flow in 0..63 {
        has_acks(rt, cells, flow, flow);
    }
    has_acks(rt, cells, 63, 65_536);
}

/// Each of 64 flows has its own lock, and comes back with what was made of it there, however much that is.
#[test]
fn each_flow_has_its_own_lock(rt: HostRuntime) -> Result<(), Fail> {
    let table = many_flows(rt.alloc())?;
    acknowledge_each(&rt, &table);
    let cells = table.close(rt.alloc())?;
    have_each(&rt, &cells);
    drop(cells);
    Ok(())
}

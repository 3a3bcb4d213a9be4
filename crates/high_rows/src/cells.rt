//! Letters that a flow refuses, and its answers.
use crate::flows::cell;
use crate::turns::{
    assert_ack, assert_complete, assert_number, assert_out, assert_refused, assert_settles_nothing,
    assert_stale, take,
};
use flow_core::{Cell, Ended, TakeFault};
use fold_machine::Acked;
use std::alloc::Global;
use std::process::Abort;
use std::test::Fail;

/// The four acknowledgements result in one report, and no fifth one is taken.
fn assert_reports_once(rt: &impl Abort, cell: &mut Cell) {
    assert_ack(rt, cell, Ok(Acked::Quiet));
    assert_ack(rt, cell, Ok(Acked::Quiet));
    assert_ack(rt, cell, Ok(Acked::Quiet));
    assert_ack(rt, cell, Ok(Acked::Reported));
    assert_ack(rt, cell, Err(Ended));
}

/// One ticket is out at a time, and its answer is applied once.
fn assert_settles_once(rt: &impl Abort, alloc: Global, cell: &mut Cell) -> Result<(), Fail> {
    let ticket = take(alloc, cell)?;
    assert_number(rt, &ticket, 0);
    assert_out(rt, cell, &ticket);
    assert_refused(rt, alloc, cell, TakeFault::Out(0));
    assert_settles_nothing(rt, cell, &ticket);
    assert_stale(rt, cell, &ticket);
    Ok(())
}

/// The flow isn't complete.
fn assert_open(rt: &impl Abort, cell: &Cell) {
    assert!(rt; !cell.is_complete());
}

/// Before the first report there is nothing to take, and after its answer the flow is complete.
fn assert_reports_and_completes(
    rt: &impl Abort,
    alloc: Global,
    cell: &mut Cell,
) -> Result<(), Fail> {
    assert_refused(rt, alloc, cell, TakeFault::NotYet);
    assert_reports_once(rt, cell);
    assert_open(rt, cell);
    assert_settles_once(rt, alloc, cell)?;
    assert_complete(rt, cell);
    Ok(())
}

/// The same of a flow, which it drops.
fn assert_flow_completes(rt: &impl Abort, alloc: Global, mut cell: Cell) -> Result<(), Fail> {
    let completed = assert_reports_and_completes(rt, alloc, &mut cell);
    drop(cell);
    completed
}

#[test]
fn a_flow_reports_once_and_is_complete(rt: HostRuntime) -> Result<(), Fail> {
    let cell = cell(rt.alloc())?;
    assert_flow_completes(&rt, rt.alloc(), cell)
}

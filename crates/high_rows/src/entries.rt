//! Entries of a flow whose programs are installed as it runs.
use live_install::{Entry, Nothing, OpenCell};
use scenario_json::calls::rollout_scene;
use scenario_json::{OpenCase, OpenCases};
use std::alloc::Global;
use std::process::Abort;
use std::test::Fail;

/// A flow without an acknowledgement and with two steps, of which the second is no program.
const REFUSED: &[u8] =
    b"{\"version\":1,\"programs\":{\"p\":\"(def) (when true (report))\",\"q\":\"(def) (when x)\"},\"traces\":{\"t\":\"10\\n\"},\"cases\":[{\"name\":\"a\",\"trace\":\"t\",\"mss\":1448,\"queue\":10,\"delay_us\":20000,\"timeout_us\":1000000,\"acks\":0,\"cwnd\":4344,\"steps\":[\"p\",\"q\"]}]}";

/// The first case.
fn first(alloc: Global, cases: &OpenCases) -> Result<OpenCase, Fail> {
    match cases.as_slice().first() {
        Some(case) => Ok(case.copy(alloc)?),
        None => Err("no case")?,
    }
}

/// A flow of the first case without a letter.
fn cell(alloc: Global, cases: &OpenCases) -> Result<OpenCell, Fail> {
    Ok(OpenCell::new(alloc, first(alloc, cases)?)?)
}

/// The step whose entry comes next instead of this one; None if this one is installed.
fn next_instead(cell: &mut OpenCell, entry: Entry) -> Option<u32> {
    match cell.install(entry) {
        Ok(()) => None,
        Err(late) => Some(late.want),
    }
}

/// The flow of a text's first case, without a letter.
fn first_open_cell(alloc: Global, text: &[u8]) -> Result<OpenCell, Fail> {
    let cases = rollout_scene(alloc, text)?;
    let cell = cell(alloc, &cases);
    drop(cases);
    cell
}

/// Asserts that an entry of the second step is late, and that nothing is left to change to.
fn assert_refused(rt: &impl Abort, alloc: Global, cell: &mut OpenCell) -> Result<(), Fail> {
    let second = Entry::make(alloc, 1, b"(def) (when x)")?;
    assert!(rt; next_instead(cell, second) == Some(0));
    assert!(rt; cell.change() == Err(Nothing));
    Ok(())
}

#[test]
fn a_late_entry_is_refused(rt: HostRuntime) -> Result<(), Fail> {
    let mut cell = first_open_cell(rt.alloc(), REFUSED)?;
    let refused = assert_refused(&rt, rt.alloc(), &mut cell);
    drop(cell);
    refused
}

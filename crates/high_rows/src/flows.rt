//! The flow that the tests take, the only case of a scenario; its copy and its row.
use crate::runs::ONE_CASE;
use crate::sums::ROW;
use campaign_gate::calls::run_case;
use ccp_base::NoMemory;
use flow_core::{Case, Cell};
use scenario_json::calls::scenario;
use scenario_json::{Scenario, SceneMode};
use std::alloc::Global;
use std::test::Fail;

/// A copy of the first of the cases.
fn first(alloc: Global, cases: &[Case]) -> Result<Case, Fail> {
    match cases.first() {
        Some(case) => Ok(case.copy(alloc)?),
        None => Err("no case")?,
    }
}

/// A copy of the first case of a scenario, which it drops.
fn copy_first(alloc: Global, scene: Scenario) -> Result<Case, Fail> {
    let case = first(alloc, scene.cases.as_slice());
    drop(scene);
    case
}

/// The case of `ONE_CASE`.
fn case(alloc: Global) -> Result<Case, Fail> {
    let scene = scenario(alloc, ONE_CASE, SceneMode::Live)?;
    copy_first(alloc, scene)
}

/// The flow of `ONE_CASE` with its link, without a letter.
pub(crate) fn cell(alloc: Global) -> Result<Cell, Fail> {
    Ok(Cell::new(alloc, case(alloc)?)?)
}

/// Whether a case is the same as its copy, which is dropped then.
fn is_same(case: &Case, copy: Case) -> bool {
    let same = case.same(&copy);
    drop(copy);
    same
}

/// Whether a case has a copy, which is the same.
fn is_copied(alloc: Global, case: &Case) -> Result<bool, Fail> {
    let copy = case.copy(alloc)?;
    Ok(is_same(case, copy))
}

/// The same of a case that is dropped then.
fn has_copy(alloc: Global, case: Case) -> Result<bool, Fail> {
    let copied = is_copied(alloc, &case);
    drop(case);
    copied
}

#[test]
fn a_copy_of_a_case_is_the_same(rt: HostRuntime) -> Result<(), Fail> {
    let case = case(rt.alloc())?;
    assert!(rt; has_copy(rt.alloc(), case)?);
    Ok(())
}

/// Whether a case has the row `ROW`,.
fn has_the_row(alloc: Global, case: Case) -> Result<bool, NoMemory> {
    let row = run_case(alloc, case)?;
    Ok(row == ROW)
}

#[test]
fn a_case_has_its_row(rt: HostRuntime) -> Result<(), Fail> {
    assert!(rt; has_the_row(rt.alloc(), case(rt.alloc())?)?);
    Ok(())
}

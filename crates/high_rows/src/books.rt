//! Runs of flows over one bottleneck with their books, which no mode prints.
ghost use Rattle.std.specs.Prelude.{◌≡◌, ◌≤◌, IfOk, length, map};
ghost use Rattle.ccp_base.specs.Limits.{most_flows, most_rounds};
ghost use Rattle.scene_core.specs.CasePlans.{plan_of, AreFlowsFrom, flow_link_of, link_at_once};
ghost use Rattle.shared_link.specs.SharedLimits.{IsWithin};

use ccp_base::{OpenGate, Workers};
use scenario_json::calls::shared_scene;
use scenario_json::{SceneFault, SharedScene};
use shared_run::{SharedRows, SharedRun, shared, shared_rows};
use std::alloc::Global;
use std::sync::Wait;
use std::test::Fail;
use std::thread::Threads;

/// Two flows with four acknowledgements each, over a link with one chance each millisecond.
const TWO: &[u8] =
    b"{\"version\":1,\"traces\":{\"t\":\"1\\n\"},\"cases\":[{\"name\":\"a\",\"agent\":\"reno\",\"trace\":\"t\",\"mss\":1448,\"queue\":10,\"delay_us\":2000,\"timeout_us\":1000000,\"acks\":4},{\"name\":\"b\",\"agent\":\"cubic\",\"trace\":\"t\",\"mss\":1448,\"queue\":10,\"delay_us\":2000,\"timeout_us\":1000000,\"acks\":4}],\"shared\":{\"trace\":\"t\",\"queue\":10,\"quantum_us\":1000,\"rounds\":100}}";

/// The scene of these flows.
#[tactic(auto, using(ccp_run::proofs::SharedLemmas::link_within))]
fn two_flows(alloc: Global) -> Result<SharedScene, SceneFault>
    ensures few { IfOk result (λ s. length s.scene.cases ≤ most_flows) }
    ensures flows { IfOk result (λ s. AreFlowsFrom 0 s.scene.cases) }
    ensures link { IfOk result (λ s. IsWithin s.link) }
    ensures links { IfOk result (λ s. map link_at_once s.link.flows ≡ map flow_link_of (map plan_of s.scene.cases)) }
    ensures rounds { IfOk result (λ s. s.rounds ≤ most_rounds) }
{
    shared_scene(alloc, TWO)
}

/// Their run with books.
fn run_with_books<R: Threads + Wait + Sync>(
    rt: &R,
    alloc: Global,
    workers: Workers,
) -> Result<SharedRun, Fail> {
    let scene = two_flows(alloc)?;
    Ok(shared(rt, alloc, scene, workers, &OpenGate)?)
}

/// Their run without books.
fn run_without_books<R: Threads + Wait + Sync>(
    rt: &R,
    alloc: Global,
    workers: Workers,
) -> Result<SharedRows, Fail> {
    let scene = two_flows(alloc)?;
    Ok(shared_rows(rt, alloc, scene, workers, &OpenGate)?)
}

/// Whether both runs have the same rows, and one has a book of each flow with its four acknowledgements.
fn is_one_run(kept: &SharedRun, made: &SharedRows) -> bool {
    let givens = kept.givens.as_slice();
    kept.rows.as_slice() == made.rows.as_slice()
        && givens.len() == 2
        && givens.iter().all(|given| given.acks.len() == 4)
}

/// The same of a run with books, and one without, which it makes and drops.
fn is_made_without_books<R: Threads + Wait + Sync>(
    rt: &R,
    alloc: Global,
    kept: &SharedRun,
) -> Result<bool, Fail> {
    let made = run_without_books(rt, alloc, Workers::new(1))?;
    let is_one = is_one_run(kept, &made);
    drop(made);
    Ok(is_one)
}

/// The same of a run with books, which it makes and drops.
fn are_made_alike<R: Threads + Wait + Sync>(rt: &R, alloc: Global) -> Result<bool, Fail> {
    let kept = run_with_books(rt, alloc, Workers::new(2))?;
    let is_one = is_made_without_books(rt, alloc, &kept);
    drop(kept);
    is_one
}

#[test]
fn a_run_with_books_has_the_rows_of_one_without(rt: HostRuntime) -> Result<(), Fail> {
    assert!(rt; are_made_alike(&rt, rt.alloc())?);
    Ok(())
}

//! The mode `timeline`: a scenario's cases on their campaign words, as the text of their books.
ghost use Rattle.std.specs.Prelude.{◌≡◌, ◌≤◌, IfOk, length};
ghost use Rattle.std.specs.List.{All};
ghost use Rattle.ccp_base.specs.Limits.{most_flows};
ghost use Rattle.scenario_json.specs.Cases.{IsCoded, AreNumberedFrom};
ghost use Rattle.ccp_run.specs.Attempts.{IsOutputOrRefusal};
ghost use Rattle.ccp_run.specs.Timeline.{TellsTimeline};
ghost use Rattle.ccp_run.specs.Modes.{Task};

use crate::modes::common::books_output;
use crate::scene::scene;
use campaign_gate::calls::books;
use ccp_base::{Gate, NoMemory, Workers};
use run_ending::{ModeOutput, Stop};
use scenario_json::{Scenario, SceneMode};
use std::alloc::Global;
use std::sync::Wait;
use std::thread::Threads;

/// The timeline of the scenario that the bytes stand for, or its refusal.
#[tactic(auto, using(crate::proofs::ScenarioInputs::of_cases))]
pub fn timeline_output<R: Threads + Wait + Sync, G: Gate + Sync>(
    rt: &R,
    alloc: Global,
    workers: Workers,
    wire: bool,
    bytes: &[u8],
    gate: &G,
) -> Result<ModeOutput, Stop>
    ensures { IsOutputOrRefusal (Task.Timeline wire) bytes.now result }
{
    let scene = scene(alloc, bytes, SceneMode::Live)?;
    Ok(run_timeline(rt, alloc, workers, wire, scene, gate)?)
}

/// The output for the cases of a scenario.
fn run_timeline<R: Threads + Wait + Sync, G: Gate + Sync>(
    rt: &R,
    alloc: Global,
    workers: Workers,
    wire: bool,
    scene: Scenario,
    gate: &G,
) -> Result<ModeOutput, NoMemory>
    requires few { length scene.cases ≤ most_flows }
    requires numbered { AreNumberedFrom 0 scene.programs }
    requires coded { All (IsCoded scene.programs) scene.cases }
    ensures programs { IfOk result (λ output. output.programs ≡ scene.programs) }
    ensures tells { IfOk result (TellsTimeline wire scene.programs scene.cases) }
{
    let Scenario {
        programs,
        names,
        cases,
    } = scene;
    drop(names);
    let books = books(rt, alloc, cases, workers, gate);
    books_output(alloc, wire, books, programs)
}

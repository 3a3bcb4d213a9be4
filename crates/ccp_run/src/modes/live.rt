//! The mode `live`: a scenario's flows on datapath and agent workers, as the text of their books.
ghost use Rattle.std.specs.Prelude.{◌≡◌, ◌≤◌, IfOk, length};
ghost use Rattle.std.specs.List.{All};
ghost use Rattle.ccp_base.specs.Limits.{most_flows};
ghost use Rattle.agent_loop.specs.LiveBooks.{AreBooksOf};
ghost use Rattle.scene_core.specs.CasePlans.{AreFlowsFrom};
ghost use Rattle.scenario_json.specs.Cases.{IsCoded, AreNumberedFrom};
ghost use Rattle.ccp_run.specs.Attempts.{IsOutputOrRefusal};
ghost use Rattle.ccp_run.specs.Live.{TellsLive};
ghost use Rattle.ccp_run.specs.Modes.{Task};

use crate::modes::common::books_output;
use crate::scene::scene;
use agent_loop::{Books, live};
use campaign_core::Cases;
use ccp_base::{Gate, NoMemory, Workers};
use flow_core::Cell;
use flow_table::FlowTable;
use run_ending::{ModeOutput, Stop};
use scenario_json::{Scenario, SceneMode};
use std::alloc::Global;
use std::sync::Wait;
use std::thread::Threads;

/// The output for the flows of the scenario that the bytes stand for, or its refusal.
#[tactic(auto, using(crate::proofs::ScenarioInputs::of_cases))]
pub fn live_output<R: Threads + Wait + Sync, G: Gate + Sync>(
    rt: &R,
    alloc: Global,
    datapaths: Workers,
    agents: Workers,
    wire: bool,
    bytes: &[u8],
    gate: &G,
) -> Result<ModeOutput, Stop>
    ensures { IsOutputOrRefusal (Task.Live wire) bytes.now result }
{
    let scene = scene(alloc, bytes, SceneMode::Live)?;
    Ok(run_live(rt, alloc, datapaths, agents, wire, scene, gate)?)
}

/// The table of the flows of these cases.
// for the prover: the lemma about flows' numbers is searched with here, and not in the caller
#[tactic(auto, using(crate::proofs::LiveLemmas::flows_numbered))]
fn table(alloc: Global, cases: Cases) -> Result<FlowTable<Cell>, NoMemory>
    requires few { length cases ≤ most_flows }
    requires flows { AreFlowsFrom 0 cases }
    ensures { IfOk result (λ table. table ≡ cases) }
{
    FlowTable::new(alloc, cases)
}

/// The output for the flows of a scenario.
fn run_live<R: Threads + Wait + Sync, G: Gate + Sync>(
    rt: &R,
    alloc: Global,
    datapaths: Workers,
    agents: Workers,
    wire: bool,
    scene: Scenario,
    gate: &G,
) -> Result<ModeOutput, NoMemory>
    requires few { length scene.cases ≤ most_flows }
    requires flows { AreFlowsFrom 0 scene.cases }
    requires numbered { AreNumberedFrom 0 scene.programs }
    requires coded { All (IsCoded scene.programs) scene.cases }
    ensures programs { IfOk result (λ output. output.programs ≡ scene.programs) }
    ensures tells { IfOk result (TellsLive wire scene.programs scene.cases) }
{
    let Scenario {
        programs,
        names,
        cases,
    } = scene;
    drop(names);
    let books = books_of(rt, alloc, datapaths, agents, cases, gate);
    books_output(alloc, wire, books, programs)
}

/// The books of the flows of these cases.
fn books_of<R: Threads + Wait + Sync, G: Gate + Sync>(
    rt: &R,
    alloc: Global,
    datapaths: Workers,
    agents: Workers,
    cases: Cases,
    gate: &G,
) -> Result<Books, NoMemory>
    requires few { length cases ≤ most_flows }
    requires flows { AreFlowsFrom 0 cases }
    ensures { IfOk result (AreBooksOf cases) }
{
    let table = table(alloc, cases)?;
    live(rt, alloc, table, datapaths, agents, gate)
}

//! The mode `acks`: the cases of a scenario on their campaign words, as lines of acknowledgements.
ghost use Rattle.std.specs.Prelude.{◌≡◌, ◌≤◌, IfOk, length, map};
ghost use Rattle.std.specs.List.{All};
ghost use Rattle.ccp_base.specs.Limits.{most_flows};
ghost use Rattle.flow_core.specs.declared.case.Case.{Case};
ghost use Rattle.campaign_gate.specs.CampaignBooks.{HasSourcePlan, acks_of_case};
ghost use Rattle.campaign_report.specs.AcksText.{acks_text};
ghost use Rattle.scenario_json.specs.Cases.{case_names, IsCoded, AreNumberedFrom};
ghost use Rattle.ccp_run.specs.AcksRuns.{TellsAcks};
ghost use Rattle.ccp_run.specs.Attempts.{IsOutputOrRefusal};
ghost use Rattle.ccp_run.specs.Campaign.{case_agents};
ghost use Rattle.ccp_run.specs.Modes.{Task};

use crate::modes::common::{agents, text_output};
use crate::scene::scene;
use campaign_core::Cases;
use campaign_gate::calls::acks;
use campaign_report::{Agents, acks_text};
use ccp_base::{Bytes, Gate, Names, NoMemory, Workers};
use run_ending::{ModeOutput, Stop};
use scenario_json::{Scenario, SceneMode};
use std::alloc::Global;
use std::sync::Wait;
use std::thread::Threads;

/// The acknowledgements of the scenario that the bytes stand for, or its refusal.
#[tactic(auto, using(crate::proofs::ScenarioInputs::of_cases))]
pub fn acks_output<R: Threads + Wait + Sync, G: Gate + Sync>(
    rt: &R,
    alloc: Global,
    workers: Workers,
    bytes: &[u8],
    gate: &G,
) -> Result<ModeOutput, Stop>
    ensures { IsOutputOrRefusal Task.Acks bytes.now result }
{
    let scene = scene(alloc, bytes, SceneMode::Live)?;
    Ok(run_acks(rt, alloc, workers, scene, gate)?)
}

/// The acknowledgements of the cases of a scenario.
fn run_acks<R: Threads + Wait + Sync, G: Gate + Sync>(
    rt: &R,
    alloc: Global,
    workers: Workers,
    scene: Scenario,
    gate: &G,
) -> Result<ModeOutput, NoMemory>
    requires names { scene.names ≡ case_names scene.cases }
    requires few { length scene.cases ≤ most_flows }
    requires numbered { AreNumberedFrom 0 scene.programs }
    requires coded { All (IsCoded scene.programs) scene.cases }
    ensures programs { IfOk result (λ output. output.programs ≡ scene.programs) }
    ensures tells { IfOk result (TellsAcks scene.programs scene.cases) }
{
    let Scenario {
        programs,
        names,
        cases,
    } = scene;
    let text = cases_text(rt, alloc, workers, &names, cases, gate);
    drop(names);
    text_output(alloc, text, programs)
}

/// The lines of the cases' acknowledgements.
fn cases_text<R: Threads + Wait + Sync, G: Gate + Sync>(
    rt: &R,
    alloc: Global,
    workers: Workers,
    names: &Names,
    cases: Cases,
    gate: &G,
) -> Result<Bytes, NoMemory>
    requires names { names.now ≡ case_names cases }
    requires few { length cases ≤ most_flows }
    ensures text { IfOk result (λ text. text ≡ acks_text (case_names cases) (case_agents cases) (map acks_of_case cases)) }
    ensures source { IfOk result (λ text. (case : Case) → HasSourcePlan case) }
{
    match agents(alloc, cases.as_slice()) {
        Ok(agents) => labelled_text(rt, alloc, workers, names, &agents, cases, gate),
        Err(error) => {
            drop(cases);
            Err(error)
        }
    }
}

/// The same, of cases that have these agents.
fn labelled_text<R: Threads + Wait + Sync, G: Gate + Sync>(
    rt: &R,
    alloc: Global,
    workers: Workers,
    names: &Names,
    agents: &Agents,
    cases: Cases,
    gate: &G,
) -> Result<Bytes, NoMemory>
    requires names { names.now ≡ case_names cases }
    requires agents { agents.now ≡ case_agents cases }
    requires few { length cases ≤ most_flows }
    ensures text { IfOk result (λ text. text ≡ acks_text (case_names cases) (case_agents cases) (map acks_of_case cases)) }
    ensures source { IfOk result (λ text. (case : Case) → HasSourcePlan case) }
{
    let acks = acks(rt, alloc, cases, workers, gate)?;
    acks_text(alloc, names, agents, &acks)
}

//! The mode `campaign`: the table of a scenario's cases, after the programs' frames if the words ask for them.
ghost use Rattle.std.specs.Prelude.{◌≡◌, ◌≤◌, ◌++◌, IfOk, length};
ghost use Rattle.ccp_base.specs.Limits.{most_cases};
ghost use Rattle.ccp_run.specs.Attempts.{IsOutputOrRefusal};
ghost use Rattle.std.specs.List.{All};
ghost use Rattle.campaign_report.specs.TableText.{table_text};
ghost use Rattle.scenario_json.specs.Cases.{case_names, IsCoded, AreNumberedFrom};
ghost use Rattle.ccp_run.specs.Campaign.{TellsCampaign, campaign_text, case_agents, frames_shown};
ghost use Rattle.ccp_run.specs.Modes.{Task};

use crate::modes::common::{agents, frames, text_output};
use crate::scene::scene;
use campaign_core::Cases;
use campaign_gate::Rows;
use campaign_gate::calls::rows;
use campaign_report::{Agents, table_text};
use ccp_base::{Bytes, Gate, Names, NoMemory, Workers};
use reg_compiler::Builts;
use run_ending::{ModeOutput, Stop};
use scenario_json::{Scenario, SceneMode};
use std::alloc::Global;
use std::sync::Wait;
use std::thread::Threads;

/// The table of the scenario that the bytes stand for, or its refusal.
#[tactic(auto, using(crate::proofs::ScenarioInputs::of_cases))]
pub fn campaign_output<R: Threads + Wait + Sync, G: Gate + Sync>(
    rt: &R,
    alloc: Global,
    workers: Workers,
    wire: bool,
    bytes: &[u8],
    gate: &G,
) -> Result<ModeOutput, Stop>
    ensures { IsOutputOrRefusal (Task.Campaign wire) bytes.now result }
{
    let scene = scene(alloc, bytes, SceneMode::Campaign)?;
    Ok(run_campaign(rt, alloc, workers, wire, scene, gate)?)
}

/// The rows of a scenario's cases.
#[tactic(auto, using(crate::proofs::CampaignLemmas::rows_over))]
fn run_campaign<R: Threads + Wait + Sync, G: Gate + Sync>(
    rt: &R,
    alloc: Global,
    workers: Workers,
    wire: bool,
    scene: Scenario,
    gate: &G,
) -> Result<ModeOutput, NoMemory>
    requires names { scene.names ≡ case_names scene.cases }
    requires few { length scene.cases ≤ most_cases }
    requires numbered { AreNumberedFrom 0 scene.programs }
    requires coded { All (IsCoded scene.programs) scene.cases }
    ensures programs { IfOk result (λ output. output.programs ≡ scene.programs) }
    ensures tells { IfOk result (TellsCampaign wire scene.programs scene.cases) }
{
    let Scenario {
        programs,
        names,
        cases,
    } = scene;
    let text = cases_text(rt, alloc, workers, wire, &programs, &names, cases, gate);
    drop(names);
    text_output(alloc, text, programs)
}

/// The table of cases of these programs, after the programs' frames if they are asked for.
fn cases_text<R: Threads + Wait + Sync, G: Gate + Sync>(
    rt: &R,
    alloc: Global,
    workers: Workers,
    wire: bool,
    programs: &Builts,
    names: &Names,
    cases: Cases,
    gate: &G,
) -> Result<Bytes, NoMemory>
    requires names { names.now ≡ case_names cases }
    requires few { length cases ≤ most_cases }
    requires numbered { AreNumberedFrom 0 programs.now }
    requires coded { All (IsCoded programs.now) cases }
    ensures { IfOk result (λ text. text ≡ campaign_text wire programs.now cases) }
{
    match agents(alloc, cases.as_slice()) {
        Ok(agents) => labelled_text(
            rt, alloc, workers, wire, programs, names, &agents, cases, gate,
        ),
        Err(error) => {
            drop(cases);
            Err(error)
        }
    }
}

/// The same, of cases that have these agents.
fn labelled_text<R: Threads + Wait + Sync, G: Gate + Sync>(
    rt: &R,
    alloc: Global,
    workers: Workers,
    wire: bool,
    programs: &Builts,
    names: &Names,
    agents: &Agents,
    cases: Cases,
    gate: &G,
) -> Result<Bytes, NoMemory>
    requires names { names.now ≡ case_names cases }
    requires agents { agents.now ≡ case_agents cases }
    requires few { length cases ≤ most_cases }
    requires numbered { AreNumberedFrom 0 programs.now }
    requires coded { All (IsCoded programs.now) cases }
    ensures { IfOk result (λ text. text ≡ campaign_text wire programs.now cases) }
{
    let rows = rows(rt, alloc, cases, workers, gate)?;
    rows_text(alloc, wire, programs, names, agents, &rows)
}

/// The table of rows, after the programs' frames if they are asked for.
fn rows_text(
    alloc: Global,
    wire: bool,
    programs: &Builts,
    names: &Names,
    agents: &Agents,
    rows: &Rows,
) -> Result<Bytes, NoMemory>
    requires within { length rows.now ≤ most_cases }
    requires names { length names.now ≡ length rows.now }
    requires agents { length agents.now ≡ length rows.now }
    ensures { IfOk result (λ text. text ≡ frames_shown wire programs.now ++ table_text names.now agents.now rows.now) }
{
    let mut text = frames(alloc, wire, programs)?;
    text.extend(table_text(alloc, names, agents, rows)?.as_slice())?;
    Ok(text)
}

//! The mode `shared`: flows on one link, as their table and the line of the link's packets.
ghost use Rattle.std.specs.Prelude.{◌≡◌, ◌≤◌, ◌++◌, [], IfOk, length, map};
ghost use Rattle.std.specs.List.{All};
ghost use Rattle.ccp_base.specs.Limits.{most_cases, most_flows, most_rounds};
ghost use Rattle.campaign_report.specs.TableText.{table_text};
ghost use Rattle.scene_core.specs.CasePlans.{plan_of, AreFlowsFrom, flow_link_of, link_at_once};
ghost use Rattle.scenario_json.specs.Cases.{case_names, IsCoded, AreNumberedFrom};
ghost use Rattle.shared_link.specs.SharedLimits.{IsWithin};
ghost use Rattle.ccp_run.specs.Attempts.{IsOutputOrRefusal};
ghost use Rattle.ccp_run.specs.Campaign.{case_agents};
ghost use Rattle.ccp_run.specs.Shared.{link_line, text_of_scene};
ghost use Rattle.ccp_run.specs.Modes.{Task};

use crate::modes::common::agents;
use crate::modes::shared_scene::{put_link_line, read_shared_scene};
use campaign_report::{Agents, table_text};
use ccp_base::{Bytes, Gate, Names, NoMemory, Workers};
use run_ending::{ModeOutput, Stop};
use scenario_json::{Scenario, SharedScene};
use shared_run::{SharedRows, shared_rows};
use std::alloc::Global;
use std::sync::Wait;
use std::thread::Threads;

/// The output for the flows of the scenario that the bytes stand for, or its refusal.
pub fn shared_output<R: Threads + Wait + Sync, G: Gate + Sync>(
    rt: &R,
    alloc: Global,
    workers: Workers,
    bytes: &[u8],
    gate: &G,
) -> Result<ModeOutput, Stop>
    ensures { IsOutputOrRefusal Task.Shared bytes.now result }
{
    let scene = read_shared_scene(alloc, bytes)?;
    Ok(run_together(rt, alloc, workers, scene, gate)?)
}

/// The output for the flows of a scenario on their link.
fn run_together<R: Threads + Wait + Sync, G: Gate + Sync>(
    rt: &R,
    alloc: Global,
    workers: Workers,
    scene: SharedScene,
    gate: &G,
) -> Result<ModeOutput, NoMemory>
    requires names { scene.scene.names ≡ case_names scene.scene.cases }
    requires few { length scene.scene.cases ≤ most_flows }
    requires numbered { AreNumberedFrom 0 scene.scene.programs }
    requires coded { All (IsCoded scene.scene.programs) scene.scene.cases }
    requires flows { AreFlowsFrom 0 scene.scene.cases }
    requires link { IsWithin scene.link }
    requires links { map link_at_once scene.link.flows ≡ map flow_link_of (map plan_of scene.scene.cases) }
    requires rounds { scene.rounds ≤ most_rounds }
    ensures text { IfOk result (λ output. output.text ≡ text_of_scene scene) }
    ensures books { IfOk result (λ output. output.books ≡ []) }
    ensures programs { IfOk result (λ output. output.programs ≡ []) }
    ensures ran { IfOk result (λ output. output.ran ≡ 0) }
{
    match labels_of(alloc, &scene.scene) {
        Ok(labels) => labelled_output(rt, alloc, workers, scene, &labels, gate),
        Err(error) => {
            drop(scene);
            Err(error)
        }
    }
}

/// What the table shows of cases beside their rows: their names and their agents.
#[derive(Drop)]
struct Labels {
    names: Names,
    agents: Agents,
}

/// The labels of a scenario's cases.
fn labels_of(alloc: Global, scene: &Scenario) -> Result<Labels, NoMemory>
    ensures names { IfOk result (λ labels. labels.names ≡ scene.now.names) }
    ensures agents { IfOk result (λ labels. labels.agents ≡ case_agents scene.now.cases) }
{
    let names = copy_names(alloc, &scene.names)?;
    let agents = agents(alloc, scene.cases.as_slice())?;
    Ok(Labels { names, agents })
}

/// The output for the flows of a scenario whose cases have these labels.
fn labelled_output<R: Threads + Wait + Sync, G: Gate + Sync>(
    rt: &R,
    alloc: Global,
    workers: Workers,
    scene: SharedScene,
    labels: &Labels,
    gate: &G,
) -> Result<ModeOutput, NoMemory>
    requires names { labels.now.names ≡ case_names scene.scene.cases }
    requires agents { labels.now.agents ≡ case_agents scene.scene.cases }
    requires few { length scene.scene.cases ≤ most_flows }
    requires numbered { AreNumberedFrom 0 scene.scene.programs }
    requires coded { All (IsCoded scene.scene.programs) scene.scene.cases }
    requires flows { AreFlowsFrom 0 scene.scene.cases }
    requires link { IsWithin scene.link }
    requires links { map link_at_once scene.link.flows ≡ map flow_link_of (map plan_of scene.scene.cases) }
    requires rounds { scene.rounds ≤ most_rounds }
    ensures text { IfOk result (λ output. output.text ≡ text_of_scene scene) }
    ensures books { IfOk result (λ output. output.books ≡ []) }
    ensures programs { IfOk result (λ output. output.programs ≡ []) }
    ensures ran { IfOk result (λ output. output.ran ≡ 0) }
{
    let made = shared_rows(rt, alloc, scene, workers, gate)?;
    let text = shared_text(alloc, &labels.names, &labels.agents, &made)?;
    Ok(ModeOutput::text(alloc, text))
}

/// The table of a run, and the line of its link's packets.
fn shared_text(
    alloc: Global,
    names: &Names,
    agents: &Agents,
    made: &SharedRows,
) -> Result<Bytes, NoMemory>
    requires within { length made.now.rows ≤ most_cases }
    requires names { length names.now ≡ length made.now.rows }
    requires agents { length agents.now ≡ length made.now.rows }
    ensures { IfOk result (λ text. text ≡ table_text names.now agents.now made.now.rows ++ link_line made.now.counts) }
{
    let mut text = table_text(alloc, names, agents, &made.rows)?;
    put_link_line(alloc, &mut text, &made.counts)?;
    Ok(text)
}

/// Equal names.
fn copy_names(alloc: Global, names: &Names) -> Result<Names, NoMemory>
    ensures { IfOk result (λ copy. copy ≡ names.now) }
{
    Ok(Names::from_vec(names.as_slice().to_vec(alloc)?))
}

//! The mode `shared-acks`: the acknowledgements of each flow on a shared link along the run, as lines, and the line of the
//! link's packets.
ghost use Rattle.std.specs.Prelude.{◌≡◌, ◌≤◌, ◌++◌, [], IfOk, length, map};
ghost use Rattle.std.specs.List.{All};
ghost use Rattle.ccp_base.specs.Limits.{most_cases, most_flows, most_rounds};
ghost use Rattle.scene_core.specs.CasePlans.{plan_of, AreFlowsFrom, flow_link_of, link_at_once};
ghost use Rattle.campaign_report.specs.AcksText.{acks_text};
ghost use Rattle.scenario_json.specs.Cases.{case_names, IsCoded, AreNumberedFrom};
ghost use Rattle.shared_link.specs.SharedLimits.{IsWithin};
ghost use Rattle.ccp_run.specs.Attempts.{IsOutputOrRefusal};
ghost use Rattle.ccp_run.specs.Campaign.{case_agents};
ghost use Rattle.ccp_run.specs.Modes.{Task};
ghost use Rattle.ccp_run.specs.Shared.{link_line};
ghost use Rattle.ccp_run.specs.SharedSeries.{shared_acks_text};

use crate::modes::common::agents;
use crate::modes::shared_scene::{put_link_line, read_shared_scene};
use crate::modes::shared_series::{Series, run_series, series_output};
use campaign_report::{Agents, acks_text};
use ccp_base::{Bytes, Gate, NoMemory, Workers};
use run_ending::{ModeOutput, Stop};
use scenario_json::SharedScene;
use std::alloc::Global;
use std::sync::Wait;
use std::thread::Threads;

/// The acknowledgements of the flows of the scenario that the bytes stand for, or its refusal.
pub fn shared_acks_output<R: Threads + Wait + Sync, G: Gate + Sync>(
    rt: &R,
    alloc: Global,
    workers: Workers,
    bytes: &[u8],
    gate: &G,
) -> Result<ModeOutput, Stop>
    ensures { IsOutputOrRefusal Task.SharedAcks bytes.now result }
{
    let scene = read_shared_scene(alloc, bytes)?;
    Ok(run_shared_acks(rt, alloc, workers, scene, gate)?)
}

/// The acknowledgements of the flows of a scenario on their link, and the link's line.
fn run_shared_acks<R: Threads + Wait + Sync, G: Gate + Sync>(
    rt: &R,
    alloc: Global,
    workers: Workers,
    scene: SharedScene,
    gate: &G,
) -> Result<ModeOutput, NoMemory>
    requires names { scene.scene.names ≡ case_names scene.scene.cases }
    requires few { length scene.scene.cases ≤ most_flows }
    requires numbered { AreNumberedFrom 0 scene.scene.programs }
    requires coded { All (IsCoded scene.scene.programs) scene.scene.cases }
    requires flows { AreFlowsFrom 0 scene.scene.cases }
    requires link { IsWithin scene.link }
    requires links { map link_at_once scene.link.flows ≡ map flow_link_of (map plan_of scene.scene.cases) }
    requires rounds { scene.rounds ≤ most_rounds }
    ensures text { IfOk result (λ output. output.text
        ≡ shared_acks_text scene.scene.programs scene.scene.cases scene.link scene.rounds) }
    ensures books { IfOk result (λ output. output.books ≡ []) }
    ensures programs { IfOk result (λ output. output.programs ≡ scene.scene.programs) }
    ensures ran { IfOk result (λ output. output.ran ≡ 0) }
{
    match agents(alloc, scene.scene.cases.as_slice()) {
        Ok(agents) => labelled_acks(rt, alloc, workers, scene, &agents, gate),
        Err(error) => {
            drop(scene);
            Err(error)
        }
    }
}

/// The same, of flows that have these agents.
fn labelled_acks<R: Threads + Wait + Sync, G: Gate + Sync>(
    rt: &R,
    alloc: Global,
    workers: Workers,
    scene: SharedScene,
    agents: &Agents,
    gate: &G,
) -> Result<ModeOutput, NoMemory>
    requires names { scene.scene.names ≡ case_names scene.scene.cases }
    requires agents { agents.now ≡ case_agents scene.scene.cases }
    requires few { length scene.scene.cases ≤ most_flows }
    requires numbered { AreNumberedFrom 0 scene.scene.programs }
    requires coded { All (IsCoded scene.scene.programs) scene.scene.cases }
    requires flows { AreFlowsFrom 0 scene.scene.cases }
    requires link { IsWithin scene.link }
    requires links { map link_at_once scene.link.flows ≡ map flow_link_of (map plan_of scene.scene.cases) }
    requires rounds { scene.rounds ≤ most_rounds }
    ensures text { IfOk result (λ output. output.text
        ≡ shared_acks_text scene.scene.programs scene.scene.cases scene.link scene.rounds) }
    ensures books { IfOk result (λ output. output.books ≡ []) }
    ensures programs { IfOk result (λ output. output.programs ≡ scene.scene.programs) }
    ensures ran { IfOk result (λ output. output.ran ≡ 0) }
{
    let series = run_series(rt, alloc, workers, scene, gate)?;
    let text = lines_text(alloc, agents, &series);
    series_output(alloc, text, series)
}

/// The lines of the flows' acknowledgements, and the link's line.
fn lines_text(alloc: Global, agents: &Agents, series: &Series) -> Result<Bytes, NoMemory>
    requires within { length series.now.histories.acks ≤ most_cases }
    requires names { length series.now.names ≡ length series.now.histories.acks }
    requires agents { length agents.now ≡ length series.now.histories.acks }
    ensures { IfOk result (λ text. text
        ≡ acks_text series.now.names agents.now series.now.histories.acks ++ link_line series.now.counts) }
{
    let mut text = acks_text(alloc, &series.names, agents, &series.histories.acks)?;
    put_link_line(alloc, &mut text, &series.counts)?;
    Ok(text)
}

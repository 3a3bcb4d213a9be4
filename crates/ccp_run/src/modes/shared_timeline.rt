//! The mode `shared-timeline`: what each flow on a shared link did along the run, as the text of the flows' books, and
//! the line of the link's packets.
ghost use Rattle.std.specs.Prelude.{◌≡◌, ◌≤◌, ◌++◌, [], IfOk, length, map};
ghost use Rattle.std.specs.List.{All};
ghost use Rattle.ccp_base.specs.Limits.{most_flows, most_rounds};
ghost use Rattle.scene_core.specs.CasePlans.{plan_of, AreFlowsFrom, flow_link_of, link_at_once};
ghost use Rattle.campaign_report.specs.BookText.{books_text};
ghost use Rattle.scenario_json.specs.Cases.{IsCoded, AreNumberedFrom};
ghost use Rattle.shared_link.specs.SharedLimits.{IsWithin};
ghost use Rattle.ccp_run.specs.Attempts.{IsOutputOrRefusal};
ghost use Rattle.ccp_run.specs.Campaign.{frames_shown};
ghost use Rattle.ccp_run.specs.Modes.{Task};
ghost use Rattle.ccp_run.specs.Shared.{link_line};
ghost use Rattle.ccp_run.specs.SharedSeries.{shared_timeline_text};

use crate::modes::common::books_text;
use crate::modes::shared_scene::{put_link_line, read_shared_scene};
use crate::modes::shared_series::{Series, run_series, series_output};
use ccp_base::{Bytes, Gate, NoMemory, Workers};
use run_ending::{ModeOutput, Stop};
use scenario_json::SharedScene;
use std::alloc::Global;
use std::sync::Wait;
use std::thread::Threads;

/// The output for the flows of the scenario that the bytes stand for, or its refusal.
pub fn shared_timeline_output<R: Threads + Wait + Sync, G: Gate + Sync>(
    rt: &R,
    alloc: Global,
    workers: Workers,
    wire: bool,
    bytes: &[u8],
    gate: &G,
) -> Result<ModeOutput, Stop>
    ensures { IsOutputOrRefusal (Task.SharedTimeline wire) bytes.now result }
{
    let scene = read_shared_scene(alloc, bytes)?;
    Ok(run_shared_timeline(rt, alloc, workers, wire, scene, gate)?)
}

/// The parts of the flows of a scenario on their link, and the link's line.
fn run_shared_timeline<R: Threads + Wait + Sync, G: Gate + Sync>(
    rt: &R,
    alloc: Global,
    workers: Workers,
    wire: bool,
    scene: SharedScene,
    gate: &G,
) -> Result<ModeOutput, NoMemory>
    requires few { length scene.scene.cases ≤ most_flows }
    requires numbered { AreNumberedFrom 0 scene.scene.programs }
    requires coded { All (IsCoded scene.scene.programs) scene.scene.cases }
    requires flows { AreFlowsFrom 0 scene.scene.cases }
    requires link { IsWithin scene.link }
    requires links { map link_at_once scene.link.flows ≡ map flow_link_of (map plan_of scene.scene.cases) }
    requires rounds { scene.rounds ≤ most_rounds }
    ensures text { IfOk result (λ output. output.text
        ≡ shared_timeline_text wire scene.scene.programs scene.scene.cases scene.link scene.rounds) }
    ensures books { IfOk result (λ output. output.books ≡ []) }
    ensures programs { IfOk result (λ output. output.programs ≡ scene.scene.programs) }
    ensures ran { IfOk result (λ output. output.ran ≡ 0) }
{
    let series = run_series(rt, alloc, workers, scene, gate)?;
    let text = parts_text(alloc, wire, &series);
    series_output(alloc, text, series)
}

/// The flows' parts, after the programs' frames if `wire` asks for them, and the link's line.
fn parts_text(alloc: Global, wire: bool, series: &Series) -> Result<Bytes, NoMemory>
    ensures { IfOk result (λ text. text
        ≡ (frames_shown wire series.now.programs ++ books_text series.now.programs series.now.histories.books)
        ++ link_line series.now.counts) }
{
    let mut text = books_text(alloc, wire, &series.histories.books, &series.programs)?;
    put_link_line(alloc, &mut text, &series.counts)?;
    Ok(text)
}

//! What `shared-timeline` and `shared-acks` share: the run of the flows on a link with their histories.
ghost use Rattle.std.specs.Prelude.{◌≡◌, ◌≤◌, [], Ok, IfOk, length, map};
ghost use Rattle.std.specs.List.{All};
ghost use Rattle.ccp_base.specs.Limits.{most_flows, most_rounds};
ghost use Rattle.scene_core.specs.CasePlans.{plan_of, AreFlowsFrom, flow_link_of, link_at_once};
ghost use Rattle.campaign_report.specs.BookText.{books_text};
ghost use Rattle.flow_core.specs.Cores.{CoreState};
ghost use Rattle.flow_core.specs.declared.book.Given.{Given};
ghost use Rattle.flow_core.specs.LiveText.{flow_from};
ghost use Rattle.reg_compiler.specs.Sources.{sources_of};
ghost use Rattle.scenario_json.specs.Cases.{IsCoded, AreNumberedFrom};
ghost use Rattle.shared_link.specs.SharedLimits.{IsWithin};
ghost use Rattle.shared_run.specs.LiftedRun.{RunHoldsForSources};
ghost use Rattle.shared_run.specs.SharedHistory.{shared_counts};
ghost use Rattle.shared_run.specs.WholeRun.{IsRunOf};
ghost use Rattle.ccp_run.specs.SharedSeries.{core_parts, source_flows};

use crate::modes::common::text_output;
use agent_loop::Books;
use campaign_core::{CaseAcks, Cases};
use ccp_base::{Bytes, Gate, Names, NoMemory, Workers};
use reg_compiler::Builts;
use run_ending::ModeOutput;
use scenario_json::{Scenario, SharedScene};
use shared_link::{Counts, SharedCase};
use shared_run::{Givens, SharedRun, shared};
use std::alloc::Global;
use std::sync::Wait;
use std::thread::Threads;

/// What flows did along a run: the books and the acknowledgements of each, in order.
#[derive(Drop)]
pub struct Histories {
    pub books: Books,
    pub acks: CaseAcks,
}

/// What a run of the flows of a scenario gives beside the link's packets, with the scenario's names and programs.
#[derive(Drop)]
pub struct Series {
    pub names: Names,
    pub programs: Builts,
    pub histories: Histories,
    pub counts: Counts,
}

/// The run of the flows of a scenario on their link.
pub fn run_series<R: Threads + Wait + Sync, G: Gate + Sync>(
    rt: &R,
    alloc: Global,
    workers: Workers,
    scene: SharedScene,
    gate: &G,
) -> Result<Series, NoMemory>
    requires few { length scene.scene.cases ≤ most_flows }
    requires numbered { AreNumberedFrom 0 scene.scene.programs }
    requires coded { All (IsCoded scene.scene.programs) scene.scene.cases }
    requires flows { AreFlowsFrom 0 scene.scene.cases }
    requires link { IsWithin scene.link }
    requires links { map link_at_once scene.link.flows ≡ map flow_link_of (map plan_of scene.scene.cases) }
    requires rounds { scene.rounds ≤ most_rounds }
    ensures names { IfOk result (λ series. series.names ≡ scene.scene.names) }
    ensures programs { IfOk result (λ series. series.programs ≡ scene.scene.programs) }
    ensures books { IfOk result (λ series. books_text scene.scene.programs series.histories.books
        ≡ core_parts (sources_of scene.scene.programs)
        (source_flows scene.scene.programs scene.scene.cases scene.link scene.rounds)) }
    ensures acks { IfOk result (λ series. series.histories.acks ≡ map (λ (core : CoreState). core.acks)
        (source_flows scene.scene.programs scene.scene.cases scene.link scene.rounds)) }
    ensures counts { IfOk result (λ series. series.counts
        ≡ shared_counts scene.link (flow_from (sources_of scene.scene.programs)) scene.scene.cases scene.rounds) }
{
    let SharedScene {
        scene,
        link,
        rounds,
    } = scene;
    let Scenario {
        programs,
        names,
        cases,
    } = scene;
    let run = run_cases(rt, alloc, workers, cases, link, rounds, gate)?;
    let histories = histories_of(alloc, run.givens)?;
    Ok(Series {
        names,
        programs,
        histories,
        counts: run.counts,
    })
}

/// The run of cases over their link. It reads no name and no program, so it gets none.
fn run_cases<R: Threads + Wait + Sync, G: Gate + Sync>(
    rt: &R,
    alloc: Global,
    workers: Workers,
    cases: Cases,
    link: SharedCase,
    rounds: u32,
    gate: &G,
) -> Result<SharedRun, NoMemory>
    requires few { length cases ≤ most_flows }
    requires flows { AreFlowsFrom 0 cases }
    requires link { IsWithin link }
    requires links { map link_at_once link.flows ≡ map flow_link_of (map plan_of cases) }
    requires rounds { rounds ≤ most_rounds }
    ensures run { IfOk result (IsRunOf link cases rounds) }
    ensures lifted { RunHoldsForSources link cases rounds }
{
    let scene = Scenario {
        programs: Builts::new(alloc),
        names: Names::new(alloc),
        cases,
    };
    let scene = SharedScene {
        scene,
        link,
        rounds,
    };
    shared(rt, alloc, scene, workers, gate)
}

/// The books and the acknowledgements of flows.
fn histories_of(alloc: Global, givens: Givens) -> Result<Histories, NoMemory>
    ensures books { IfOk result (λ made. made.books ≡ map (λ (given : Given). given.book) givens) }
    ensures acks { IfOk result (λ made. made.acks ≡ map (λ (given : Given). given.acks) givens) }
{
    let mut books = Books::new(alloc);
    let mut acks = CaseAcks::new(alloc);
    for given in givens.into_vec() {
        books.push(given.book)?;
        acks.push(given.acks)?;
    }
    Ok(Histories { books, acks })
}

/// The output of a text of a series, or none if there was no memory for it. It keeps the programs.
pub fn series_output(
    alloc: Global,
    text: Result<Bytes, NoMemory>,
    series: Series,
) -> Result<ModeOutput, NoMemory>
    ensures text { IfOk result (λ output. text ≡ Ok output.text) }
    ensures books { IfOk result (λ output. output.books ≡ []) }
    ensures programs { IfOk result (λ output. output.programs ≡ series.programs) }
    ensures ran { IfOk result (λ output. output.ran ≡ 0) }
{
    let Series {
        programs,
        names,
        histories,
        counts: _,
    } = series;
    drop(names);
    drop(histories);
    text_output(alloc, text, programs)
}

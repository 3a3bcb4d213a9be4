//! The run of a scenario's cases over one link.
ghost use Rattle.std.specs.Prelude.{◌≡◌, ◌≤◌, max, min, length, map, IfOk};
ghost use Rattle.ccp_base.specs.Limits.{most_flows, most_rounds};
ghost use Rattle.flow_core.specs.Readings.{over_codes};
ghost use Rattle.scene_core.specs.CasePlans.{plan_of, AreFlowsFrom, flow_link_of, link_at_once};
ghost use Rattle.shared_link.specs.SharedLimits.{IsWithin};
ghost use Rattle.shared_run.specs.SharedHistory.{flows_at_end, round_limit, shared_rows, shared_counts};
ghost use Rattle.shared_rounds.specs.Rounds.{StandsAfter};
ghost use Rattle.shared_run.specs.Courses.{asks_in, EndsInTime};
ghost use Rattle.shared_run.specs.RoundFlows.{kept_at};
ghost use Rattle.shared_run.specs.WholeRun.{IsRunOf};
ghost use Rattle.shared_run.specs.LiftedRun.{RunHoldsForSources};

use crate::books::{SharedRows, SharedRun, givens_of, rows_of};
use crate::case_course::{CaseCourse, CourseOf};
use crate::flows::{close_flows, open_flows};
use crate::run_flow::{LockedRunFlow, RunFlow};
use campaign_core::{BareFlow, Cases, GivenFlow, TalliedFlow};
use ccp_base::{Gate, NoMemory, Workers};
use flow_core::{Case, Core};
use scene_core::SharedScene;
use shared_link::{Counts, SharedCase, SharedLink};
use shared_rounds::{Bell, run_by_workers};
use std::alloc::Global;
use std::marker::Brand;
use std::sync::Wait;
use std::thread::{Parker, Threads};

/// Runs the flows of a scenario over its link, whatever the number of workers. In each round the flows ask for
/// acknowledgements, the link answers, and each flow that has some does its part on a worker: worker `w` does the parts
/// of each flow `f` with `f mod workers = w`, in order. Workers that have parts in a round do them side by side, each
/// in a thread that lives for the whole run; the parts of the first of them are done by the caller, and so are those of
/// a worker for which no thread can be started. A flow's next question comes back with its part; a flow without
/// acknowledgements in a round stays as it is. A worker passes the gate at `InCase` before a part and at `AfterCase`
/// after it. The run ends after the round in which all flows have all acknowledgements, and at the latest after
/// `rounds` rounds; without flows no round is run. Then each flow takes and answers until nothing is left. A run whose
/// thread didn't send its parts back, or whose lock lost its flow, would wait forever.
pub fn shared<R: Threads + Wait + Sync, G: Gate + Sync>(
    rt: &R,
    alloc: Global,
    scene: SharedScene,
    workers: Workers,
    gate: &G,
) -> Result<SharedRun, NoMemory>
    requires few { length scene.scene.cases ≤ most_flows }
    requires flows { AreFlowsFrom 0 scene.scene.cases }
    requires link { IsWithin scene.link }
    requires links { map link_at_once scene.link.flows ≡ map flow_link_of (map plan_of scene.scene.cases) }
    requires rounds { scene.rounds ≤ most_rounds }
    ensures run { IfOk result (IsRunOf scene.link scene.scene.cases scene.rounds) }
    // It ends after the first round in which all flows have all acknowledgements, or else after the last one.
    ensures ends { EndsInTime scene.link scene.scene.cases scene.rounds }
    // For all programs that the cases' codes simulate, the run is that of these sources.
    ensures lifted { RunHoldsForSources scene.link scene.scene.cases scene.rounds }
{
    let run = run::<Core, R, G>(rt, alloc, scene, workers, gate)?;
    let rows = rows_of(alloc, run.flows.as_slice())?;
    let counts = run.counts;
    let givens = givens_of(alloc, run.flows)?;
    Ok(SharedRun {
        givens,
        rows,
        counts,
    })
}

/// As `shared`, without the flows' books: no flow keeps its history, so a flow takes no more memory the longer it runs.
pub fn shared_rows<R: Threads + Wait + Sync, G: Gate + Sync>(
    rt: &R,
    alloc: Global,
    scene: SharedScene,
    workers: Workers,
    gate: &G,
) -> Result<SharedRows, NoMemory>
    requires few { length scene.scene.cases ≤ most_flows }
    requires flows { AreFlowsFrom 0 scene.scene.cases }
    requires link { IsWithin scene.link }
    requires links { map link_at_once scene.link.flows ≡ map flow_link_of (map plan_of scene.scene.cases) }
    requires rounds { scene.rounds ≤ most_rounds }
    ensures rows { IfOk result (λ run. run.rows ≡ shared_rows scene.link over_codes scene.scene.cases scene.rounds) }
    ensures counts { IfOk result (λ run. run.counts
        ≡ shared_counts scene.link over_codes scene.scene.cases scene.rounds) }
    // It ends after the first round in which all flows have all acknowledgements, or else after the last one.
    ensures ends { EndsInTime scene.link scene.scene.cases scene.rounds }
    // For all programs that the cases' codes simulate, the run is that of these sources.
    ensures lifted { RunHoldsForSources scene.link scene.scene.cases scene.rounds }
{
    let run = run::<BareFlow, R, G>(rt, alloc, scene, workers, gate)?;
    let rows = rows_of(alloc, run.flows.as_slice())?;
    Ok(SharedRows {
        rows,
        counts: run.counts,
    })
}

/// A run at its end: its flows, of which nothing is left to take or to answer, in order, and the link's packets.
#[derive(Drop)]
struct ClosedRun<F: GivenFlow> {
    flows: Vec<TalliedFlow<F>>,
    counts: Counts,
}

/// The run, over the codes of the cases.
fn run<F: GivenFlow + Send, R: Threads + Wait + Sync, G: Gate + Sync>(
    rt: &R,
    alloc: Global,
    scene: SharedScene,
    workers: Workers,
    gate: &G,
) -> Result<ClosedRun<F>, NoMemory>
    requires few { length scene.scene.cases ≤ most_flows }
    requires link { IsWithin scene.link }
    requires links { map link_at_once scene.link.flows ≡ map flow_link_of (map plan_of scene.scene.cases) }
    requires rounds { scene.rounds ≤ most_rounds }
    ensures flows { IfOk result (λ run. map (λ shared. (shared.flow, shared.tally)) run.flows.items
        ≡ map (kept_at F.at) (flows_at_end scene.link over_codes scene.scene.cases scene.rounds)) }
    ensures counts { IfOk result (λ run. run.counts
        ≡ shared_counts scene.link over_codes scene.scene.cases scene.rounds) }
{
    let SharedScene {
        scene,
        link,
        rounds: most,
    } = scene;
    run_course::<Brand, F, R, G>(rt, alloc, link, scene.cases, most, workers, gate)
}

/// A run before its first round.
#[derive(Drop)]
struct OpenRun<C: CaseCourse, F: GivenFlow> {
    link: SharedLink,
    flows: Vec<LockedRunFlow<C, F>>,
    /// A bell for each worker.
    bells: Vec<Bell>,
}

/// The run of these cases over their link for at most `most` rounds. Its parts have types that name it.
fn run_course<
    C: CaseCourse + Send + Sync,
    F: GivenFlow + Send,
    R: Threads + Wait + Sync,
    G: Gate + Sync,
>(
    rt: &R,
    alloc: Global,
    link: SharedCase,
    cases: Cases,
    most: u32,
    workers: Workers,
    gate: &G,
) -> Result<ClosedRun<F>, NoMemory>
    requires link { link ≡ C.link }
    requires cases { cases ≡ C.cases }
    requires few { length C.cases ≤ most_flows }
    requires within { IsWithin C.link }
    requires links { map link_at_once C.link.flows ≡ map flow_link_of (map plan_of C.cases) }
    requires rounds { most ≤ most_rounds }
    ensures flows { IfOk result (λ run. map (λ shared. (shared.flow, shared.tally)) run.flows.items
        ≡ map (kept_at F.at) (flows_at_end C.link over_codes C.cases most)) }
    ensures counts { IfOk result (λ run. run.counts ≡ shared_counts C.link over_codes C.cases most) }
{
    let most = most_of(cases.as_slice(), most);
    let OpenRun { link, flows, bells } = open_run::<C, F>(alloc, link, cases, workers)?;
    let end = run_by_workers::<CourseOf<C>, RunFlow<C, F>, R, G>(
        rt,
        alloc,
        link,
        flows.as_slice(),
        most,
        bells.as_slice(),
        gate,
    )?;
    let counts = end.link.counts();
    let flows = close_flows(rt, alloc, flows, &end.known, end.rounds)?;
    Ok(ClosedRun { flows, counts })
}

// A function of its own: each of its exits drops little, and its caller has one exit for all of them.
/// The run before its first round.
fn open_run<C: CaseCourse, F: GivenFlow>(
    alloc: Global,
    link: SharedCase,
    cases: Cases,
    workers: Workers,
) -> Result<OpenRun<C, F>, NoMemory>
    requires link { link ≡ C.link }
    requires cases { cases ≡ C.cases }
    requires few { length C.cases ≤ most_flows }
    requires within { IsWithin C.link }
    ensures stands { IfOk result (λ run. StandsAfter C.link (asks_in C.link C.cases) 0 run.link) }
    ensures flows { IfOk result (λ run. length run.flows.items ≡ length C.cases) }
    ensures bells { IfOk result (λ run. length run.bells.items
        ≡ max (min workers.count (length run.flows.items)) 1) }
{
    let link = SharedLink::new(alloc, link)?;
    let flows = open_flows::<C, F>(alloc, cases)?;
    let bells = make_bells(alloc, workers_of(workers, flows.len()))?;
    Ok(OpenRun { link, flows, bells })
}

/// How many of the workers a run of `flows` flows has: at most one for each flow, since a worker without a flow would
/// still cost time in every round, and at least one.
fn workers_of(workers: Workers, flows: usize) -> usize
    ensures { result ≡ max (min workers.count flows) 1 }
{
    (workers.count() as usize).min(flows).max(1)
}

/// A bell for each worker of a run.
fn make_bells(alloc: Global, workers: usize) -> Result<Vec<Bell>, NoMemory>
    ensures { IfOk result (λ bells. length bells.items ≡ workers) }
{
    let mut bells = Vec::new(alloc);
    for _worker in 0..workers {
        bells.push(Bell::new(Parker::new()))?;
    }
    Ok(bells)
}

/// How many rounds these cases are run for at most. It is separate since the proof of its caller cites its clause.
fn most_of(cases: &[Case], rounds: u32) -> u32
    ensures { result ≡ round_limit cases.now rounds }
{
    if cases.is_empty() { 0 } else { rounds }
}

//! The flows of a run side by side, each behind its lock, before its first round and at its end.
ghost use Rattle.std.specs.Prelude.{◌≡◌, ◌≤◌, Some, length, map, slice_get, IfOk};
ghost use Rattle.ccp_base.specs.Limits.{most_flows};
ghost use Rattle.flow_core.specs.Readings.{over_codes};
ghost use Rattle.shared_link.specs.SharedLimits.{IsWithin};
ghost use Rattle.shared_rounds.specs.KnownFlows.{AreKnown};
ghost use Rattle.shared_run.specs.RoundLetters.{closed_flow};
ghost use Rattle.shared_run.specs.Courses.{flows_after};
ghost use Rattle.shared_run.specs.RoundFlows.{kept_at};

use crate::case_course::{CaseCourse, CourseOf};
use crate::flow::close;
use crate::run_flow::{LockedRunFlow, RunFlow};
use campaign_core::{Cases, GivenFlow, TalliedFlow};
use ccp_base::NoMemory;
use crossbeam_utils::CachePadded;
use shared_rounds::{KnownFlow, KnownFlows};
use std::alloc::Global;
use std::sync::{Mutex, Wait};

/// The flows of a run's cases before the first round, in order.
pub(crate) fn open_flows<C: CaseCourse, F: GivenFlow>(
    alloc: Global,
    cases: Cases,
) -> Result<Vec<LockedRunFlow<C, F>>, NoMemory>
    requires cases { cases ≡ C.cases }
    requires few { length cases ≤ most_flows }
    requires within { IsWithin C.link }
    ensures { IfOk result (λ flows. length flows.items ≡ length C.cases) }
{
    let mut flows = Vec::new(alloc);
    let mut number = 0;
    for case in cases.into_vec() {
        let flow = TalliedFlow::<F>::open(alloc, case)?;
        let flow = Mutex::new(RunFlow::<C, F>::begin(flow, number));
        flows.push(CachePadded::new(flow))?;
        number += 1;
    }
    Ok(flows)
}

/// The flows of a run that ends after this many rounds, in order, each of which takes and answers until nothing is
/// left.
pub(crate) fn close_flows<C: CaseCourse, F: GivenFlow, R: Wait>(
    rt: &R,
    alloc: Global,
    flows: Vec<LockedRunFlow<C, F>>,
    known: &KnownFlows<CourseOf<C>>,
    round: u32,
) -> Result<Vec<TalliedFlow<F>>, NoMemory>
    requires flows { length flows.items ≡ length (flows_after C.link C.cases round) }
    requires few { length flows.items ≤ most_flows }
    requires all { length known.now ≡ length flows.items }
    requires known { AreKnown known.now round }
    ensures { IfOk result (λ flows. map (λ shared. (shared.flow, shared.tally)) flows.items
        ≡ map (kept_at F.at) (map (closed_flow over_codes) (flows_after C.link C.cases round))) }
{
    let mut closed = Vec::new(alloc);
    let mut number = 0;
    for flow in flows {
        closed.push(close_flow(rt, alloc, flow, known.at(number))?)?;
        number += 1;
    }
    Ok(closed)
}

/// The flow of a run that ends after as many rounds as it is known: it takes and answers until nothing is left.
fn close_flow<C: CaseCourse, F: GivenFlow, R: Wait>(
    rt: &R,
    alloc: Global,
    flow: LockedRunFlow<C, F>,
    known: &KnownFlow<CourseOf<C>>,
) -> Result<TalliedFlow<F>, NoMemory>
    ensures { IfOk result (λ shared.
        slice_get (map (kept_at F.at) (map (closed_flow over_codes) (flows_after C.link C.cases known.now.round)))
        known.now.number
        ≡ Some (shared.flow, shared.tally)) }
{
    let flow = flow.into_inner().into_inner();
    let mut flow = flow.into_flow(rt, known);
    close(&mut flow, alloc)?;
    Ok(flow)
}

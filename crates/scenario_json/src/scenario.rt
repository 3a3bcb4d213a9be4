//! How the scenario that is run is put together from programs and plans.
ghost use Rattle.std.specs.Prelude.{◌≡◌, ◌≤◌, [], IfOk, OnOk, length, map};
ghost use Rattle.std.specs.List.{All};
ghost use Rattle.ccp_base.specs.Limits.{most_cases};
ghost use Rattle.scene_members.specs.Plans.{IsPlan};
ghost use Rattle.scene_core.specs.CasePlans.{plan_of, at_once, AreFlowsFrom};
ghost use Rattle.scenario_json.specs.Cases.{case_names, IsCoded};

use crate::cases::case;
use ccp_base::{Names, NoMemory, Sequence};
use flow_core::Case;
use reg_compiler::{Built, Builts};
use scene_core::Scenario;
use scene_members::Plans;
use std::alloc::Global;

/// Puts the cases of plans into an empty list, and their names into another.
#[tactic(auto, using(scene_members::proofs::ListLemmas::all_pushed))]
fn put_cases(
    alloc: Global,
    programs: &[(u32, Built)],
    names: &mut Names,
    cases: &mut Sequence<Case>,
    plans: Plans,
) -> Result<(), NoMemory>
    requires within { All (IsPlan (length programs.now)) plans }
    requires few { length plans ≤ most_cases }
    requires unnamed { names.old ≡ [] }
    requires empty { cases.old ≡ [] }
    ensures plans { OnOk result (map plan_of cases.new ≡ map at_once plans) }
    ensures names { OnOk result (names.new ≡ case_names cases.new) }
    ensures coded { OnOk result (All (IsCoded programs.now) cases.new) }
    ensures flows { OnOk result (AreFlowsFrom 0 cases.new) }
{
    for plan in plans.into_vec() {
        // The case goes first, so that no later exit drops its plan.
        let name = plan.name;
        let flow = cases.len() as u32;
        cases.push(case(alloc, programs, flow, plan)?)?;
        names.push(name)?;
    }
    Ok(())
}

/// The scenario of these programs and plans. When a flow starts is no part of it.
pub(crate) fn put_together(
    alloc: Global,
    programs: Builts,
    plans: Plans,
) -> Result<Scenario, NoMemory>
    requires within { All (IsPlan (length programs)) plans }
    requires few { length plans ≤ most_cases }
    ensures programs { IfOk result (λ s. s.programs ≡ programs) }
    ensures plans { IfOk result (λ s. map plan_of s.cases ≡ map at_once plans) }
    ensures names { IfOk result (λ s. s.names ≡ case_names s.cases) }
    ensures coded { IfOk result (λ s. All (IsCoded s.programs) s.cases) }
    ensures flows { IfOk result (λ s. AreFlowsFrom 0 s.cases) }
{
    let mut names = Sequence::new(alloc);
    let mut cases = Sequence::new(alloc);
    put_cases(alloc, programs.as_slice(), &mut names, &mut cases, plans)?;
    Ok(Scenario {
        programs,
        names,
        cases,
    })
}

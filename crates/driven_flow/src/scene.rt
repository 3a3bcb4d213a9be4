//! The cases of driven flows, from those of a scenario.
ghost use Rattle.std.specs.Prelude.{◌≡◌, IfOk, length, map};
ghost use Rattle.driven_flow.specs.DrivenCases.{driven_case};

use crate::case::DrivenCase;
use ccp_base::{NoMemory, Sequence};
use flow_core::Case;
use std::alloc::Global;

fn driven_case(alloc: Global, case: &Case) -> Result<DrivenCase, NoMemory>
    ensures { IfOk result (λ driven. driven ≡ driven_case case.now) }
{
    let link = case.link.copy(alloc)?;
    Ok(DrivenCase {
        flow: case.flow,
        name: case.name,
        link,
        acks: case.acks,
        slots: case.slots,
        lag: case.lag,
    })
}

/// The cases of driven flows: each is a case of a scenario without its agent and its programs, in the same order.
pub fn driven_cases(alloc: Global, cases: &[Case]) -> Result<Sequence<DrivenCase>, NoMemory>
    ensures cases { IfOk result (λ driven. driven ≡ map driven_case cases.now) }
    ensures count { IfOk result (λ driven. length driven ≡ length cases.now) }
{
    let mut driven = Sequence::new(alloc);
    let mut rest = cases;
    while let Some((case, later)) = rest.split_first() {
        driven.push(driven_case(alloc, case)?)?;
        rest = later;
    }
    Ok(driven)
}

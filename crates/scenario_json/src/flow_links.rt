//! How each plan of a scenario becomes a flow's part of the shared link.
ghost use Rattle.std.specs.Prelude.{◌≡◌, IfOk, map};
ghost use Rattle.scene_core.specs.CasePlans.{flow_link_of};

use ccp_base::{NoMemory, Sequence};
use scene_members::Plan;
use shared_link::{FlowLink, FlowLinks};
use std::alloc::Global;

fn flow_link(alloc: Global, plan: &Plan) -> Result<FlowLink, NoMemory>
    ensures { IfOk result (λ l. l ≡ flow_link_of plan.now) }
{
    let losses = Sequence::from_vec(plan.loss_plan.losses.as_slice().to_vec(alloc)?);
    Ok(FlowLink {
        mss: plan.link_numbers.mss,
        delay_us: plan.link_numbers.delay_us,
        timeout_us: plan.link_numbers.timeout_us,
        losses,
        mark: plan.loss_plan.mark,
        start_us: plan.start_us,
    })
}

/// What the flows of these plans have of their own on a link that they share.
pub(crate) fn flow_links(alloc: Global, plans: &[Plan]) -> Result<FlowLinks, NoMemory>
    ensures { IfOk result (λ ls. ls ≡ map flow_link_of plans.now) }
{
    let mut links = Sequence::new(alloc);
    let mut rest = plans;
    while let Some((plan, later)) = rest.split_first() {
        links.push(flow_link(alloc, plan)?)?;
        rest = later;
    }
    Ok(links)
}

//! The results of a shared run: the flows' rows, and their books if they have their history, beside the link's packets.
ghost use Rattle.std.specs.Prelude.{◌≡◌, true, List, map, IfOk};
ghost use Rattle.std.specs.List.{All};
ghost use Rattle.flow_core.specs.Readings.{over_codes};
ghost use Rattle.flow_core.specs.Words.{is_still};
ghost use Rattle.flow_core.specs.Cores.{CoreState};
ghost use Rattle.campaign_core.specs.FlowRow.{flow_row, world_of_core};
ghost use Rattle.shared_run.specs.SharedBooks.{AreGivensOf};
ghost use Rattle.shared_run.specs.RoundFlows.{kept_at, HaveAllAcks};

use crate::flow::finish;
use campaign_core::{GivenFlow, Rows, TalliedFlow};
use ccp_base::{NoMemory, Sequence};
use flow_core::{Core, Given};
use shared_link::Counts;
use std::alloc::Global;

/// The books of a run's flows with their acknowledgements, in order.
pub type Givens = Sequence<Given>;

/// The result of a run: the flows' books with their acknowledgements and the flows' rows, both in the order of the
/// flows, and the link's packets.
#[derive(Drop)]
pub struct SharedRun {
    pub givens: Givens,
    pub rows: Rows,
    pub counts: Counts,
}

/// The result of a run without the flows' books: the flows' rows, in order, and the link's packets.
#[derive(Drop)]
pub struct SharedRows {
    pub rows: Rows,
    pub counts: Counts,
}

/// The rows of flows, in order.
pub(crate) fn rows_of<F: GivenFlow>(
    alloc: Global,
    flows: &[TalliedFlow<F>],
) -> Result<Rows, NoMemory>
    ensures { IfOk result (λ rows. (cores : List CoreState) → HaveAllAcks cores
        → map (λ shared. (shared.flow, shared.tally)) flows.now ≡ map (kept_at F.at) cores
        → rows ≡ map (flow_row over_codes) cores) }
{
    let mut rows = Rows::new(alloc);
    let mut rest = flows;
    while let Some((flow, later)) = rest.split_first() {
        rows.push(flow.row())?;
        rest = later;
    }
    Ok(rows)
}

/// The books of flows with their acknowledgements, in order. No ticket of them may be out, and nothing may be left to
/// take.
pub(crate) fn givens_of(alloc: Global, flows: Vec<TalliedFlow<Core>>) -> Result<Givens, NoMemory>
    requires { All (λ (core : CoreState). is_still (world_of_core over_codes core) ≡ true)
        (map (λ shared. shared.flow) flows.items) }
    ensures { IfOk result (AreGivensOf (map (λ shared. shared.flow) flows.items)) }
{
    let mut givens = Givens::new(alloc);
    for flow in flows {
        givens.push(finish(flow))?;
    }
    Ok(givens)
}

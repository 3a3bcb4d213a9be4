//! The books of a rollout's flows, made once the work of each of their workers is done.
ghost use Rattle.std.specs.Prelude.{◌≡◌, map, IfOk, length};
ghost use Rattle.std.specs.List.{All};
ghost use Rattle.flow_table.specs.Led.{AreLedTo};
ghost use Rattle.live_install.specs.Crews.{HasWorked};
ghost use Rattle.live_install.specs.RolloutFlows.{HasNextLetter, case_of, flow_in};
ghost use Rattle.live_install.specs.WholeBooks.{IsWhole, case_in};

use crate::crew::Crew;
use crate::rollout_flow::RolloutFlow;
use ccp_base::{NoMemory, Sequence, Workers};
use flow_table::make_books;
use open_flow::OpenBooks;
use std::alloc::Global;

/// The books of flows, in order, once the work of each of their workers is done: each has the history that the workers
/// left, with the caller's letters after it.
pub(crate) fn books(
    alloc: Global,
    flows: Sequence<RolloutFlow>,
    datapaths: Workers,
    agents: Workers,
    crew: Crew,
) -> Result<OpenBooks, NoMemory>
    requires { HasWorked crew datapaths.count agents.count (length (map case_of flows)) }
    ensures cases { IfOk result (λ books. map case_in books ≡ map case_of flows) }
    ensures led { IfOk result (λ books. AreLedTo HasNextLetter flows (map flow_in books)) }
    ensures whole { IfOk result (λ books. All IsWhole books) }
{
    // for the contract alone: the books are made once the crew's work is done
    drop(crew);
    make_books(alloc, flows)
}

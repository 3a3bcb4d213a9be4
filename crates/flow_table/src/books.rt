//! The books of flows, once their workers are done.

ghost use Rattle.std.specs.Prelude.{◌≡◌, ◌<◌, [], map, IfOk, OnOk, length};
ghost use Rattle.std.specs.List.{All};
ghost use Rattle.flow_table.specs.Led.{IsLedTo, AreLedTo};

use crate::flow::LockedFlow;
use ccp_base::{NoMemory, Sequence};
use std::alloc::Global;

/// The books of flows, in order, after every letter that is left: each tells the history of its flow as it was given,
/// with the caller's letters after it.
pub fn make_books<F: LockedFlow>(
    alloc: Global,
    flows: Sequence<F>,
) -> Result<Sequence<F::Book>, NoMemory>
    ensures cases { IfOk result (λ books. map F.case_in books ≡ map F.case_of flows) }
    ensures whole { IfOk result (λ books. All F.IsWhole books) }
    ensures led { IfOk result (λ books. AreLedTo F.HasNext flows (map F.flow_in books)) }
{
    let mut left = flows.into_vec();
    let mut books = Sequence::new(alloc);
    while !left.is_empty() {
        let flow = left.remove(0);
        books.push(finish_flow(alloc, flow)?)?;
    }
    Ok(books)
}

/// The book of a flow, after every letter that is left.
fn finish_flow<F: LockedFlow>(alloc: Global, flow: F) -> Result<F::Book, NoMemory>
    ensures case { IfOk result (λ book. F.case_in book ≡ F.case_of flow) }
    ensures whole { IfOk result F.IsWhole }
    ensures led { IfOk result (λ book. IsLedTo F.HasNext flow (F.flow_in book)) }
{
    let mut flow = flow;
    match complete(alloc, &mut flow) {
        Ok(()) => Ok(flow.finish()),
        Err(error) => {
            drop(flow);
            Err(error)
        }
    }
}

/// Makes every letter that is left.
fn complete<F: LockedFlow>(alloc: Global, flow: &mut F) -> Result<(), NoMemory>
    ensures case { OnOk result (F.case_of flow.new ≡ F.case_of flow.old) }
    ensures done { OnOk result (F.IsDone flow.new) }
    ensures led { OnOk result (IsLedTo F.HasNext flow.old flow.new) }
{
    while !flow.is_done() {
        flow.make_next(alloc)?;
    }
    Ok(())
}

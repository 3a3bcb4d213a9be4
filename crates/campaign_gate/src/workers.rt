//! How workers run a campaign's cases side by side, and how their items are merged in the order of the cases.
ghost use Rattle.std.specs.Prelude.{◌≡◌, ℕ, ◌<◌, ◌≤◌, map, length, IfOk, OnOk, IfSome, slice_get};
ghost use Rattle.ccp_base.specs.Limits.{most_cases};
ghost use Rattle.campaign_gate.specs.Parts.{HasPart};
ghost use Rattle.campaign_gate.specs.Shares.{shares, front_of, turned};

use crate::case_result::CaseResult;
use crate::queue::Queue;
use crate::share::{Campaign, Share, share_of};
use ccp_base::{Gate, NoMemory, Sequence, Workers};
use flow_core::Case;
use std::alloc::Global;
use std::thread;
use std::thread::Threads;

/// The result of each case of a campaign, in the order of the cases. `workers` workers make them, and run each case
/// once. If a worker runs out of memory, so does the call.
pub(crate) fn make_by_workers<
    C: Campaign + Send + Sync,
    M: CaseResult + Send,
    R: Threads + Sync,
    G: Gate + Sync,
>(
    rt: &R,
    alloc: Global,
    cases: &[Case],
    workers: Workers,
    gate: &G,
) -> Result<Sequence<M>, NoMemory>
    requires cases { cases.now ≡ C.cases }
    requires few { length cases.now ≤ most_cases }
    ensures { IfOk result (λ made. made ≡ map M.of_case cases.now) }
{
    let part = |worker: usize| -> Result<Share<C, M>, NoMemory>
        requires { HasPart worker workers cases.now C.cases }
        ensures worker { IfOk result (λ share. share.run.worker ≡ worker) }
        ensures workers { IfOk result (λ share. share.run.workers ≡ workers.count) }
    { share_of::<C, M, G>(alloc, cases, workers, worker as u32, gate) };
    let parts = thread::map_indices(rt, alloc, workers.count() as usize, &part)?;
    let queues = queues_of::<C, M>(alloc, Queue::from_vec(parts), workers)?;
    merge::<C, M>(alloc, queues, workers)
}

/// The results of each worker in a queue, in the order of the workers.
fn queues_of<C: Campaign, M: CaseResult>(
    alloc: Global,
    parts: Queue<Result<Share<C, M>, NoMemory>>,
    workers: Workers,
) -> Result<Queue<Queue<M>>, NoMemory>
    requires len { length parts ≡ workers.count }
    requires each { (worker : ℕ) → IfSome (slice_get parts worker) (λ part.
        IfOk part (λ share. (share.run.worker ≡ worker) × (share.run.workers ≡ workers.count))) }
    ensures { IfOk result (λ queues. queues ≡ shares workers.count (map M.of_case C.cases)) }
{
    let mut parts = parts;
    let mut queues = Queue::new(alloc);
    while let Some(part) = parts.take() {
        let share = part?;
        queues.put(share.made)?;
    }
    Ok(queues)
}

/// Merges the workers' queues to the results in the order of the cases: the queues give one item each, in turns.
fn merge<C: Campaign, M: CaseResult>(
    alloc: Global,
    queues: Queue<Queue<M>>,
    workers: Workers,
) -> Result<Sequence<M>, NoMemory>
    requires queues { queues ≡ shares workers.count (map M.of_case C.cases) }
    ensures { IfOk result (λ made. made ≡ map M.of_case C.cases) }
{
    let mut queues = queues;
    let mut made = Sequence::new(alloc);
    while let Some(one) = take_front(&mut queues)? {
        made.push(one)?;
    }
    Ok(made)
}

/// Takes the first item of the first queue, and puts that queue last.
fn take_front<M: Drop>(queues: &mut Queue<Queue<M>>) -> Result<Option<M>, NoMemory>
    ensures item { IfOk result (λ item. item ≡ front_of queues.old) }
    ensures rest { OnOk result (queues.new ≡ turned queues.old) }
{
    let Some(queue) = queues.take() else {
        return Ok(None);
    };
    let mut queue = queue;
    let item = queue.take();
    queues.put(queue)?;
    Ok(item)
}

//! A worker's share of a campaign: its cases, which are chosen by their numbers, and their results.
ghost use Rattle.std.specs.Prelude.{◌≡◌, ◌<◌, ◌≤◌, [], List, map, length, IfOk};
ghost use Rattle.ccp_base.specs.Limits.{most_cases};
ghost use Rattle.flow_core.specs.declared.case.Case.{Case};
ghost use Rattle.worker_desk.specs.EveryNth.{every};

use crate::case_desk::CampaignDesk;
use crate::case_result::CaseResult;
use crate::queue::Queue;
use ccp_base::{Gate, NoMemory, Workers};
use flow_core::Case;
use std::alloc::Global;
use std::marker::{Brand, PhantomData};
use worker_desk::{CasesRun, run_cases};

/// The cases of a campaign, which the type of a worker's share names.
pub(crate) trait Campaign {
    ghost cases: { List Case };
}

impl Campaign for Brand {
    ghost cases = { [] };
}

/// The results of a worker: one for each of its cases, in order, and nothing else. Its receipt says which worker it is,
/// and that it did its work at a desk.
#[derive(Drop)]
pub(crate) struct Share<C: Campaign, M: CaseResult> {
    pub(crate) run: CasesRun,
    pub(crate) made: Queue<M>,
    of: PhantomData<C>,
    ghost is_share: { made ≡ every run.workers run.worker (map M.of_case C.cases) },
    ghost all: { run.cases ≡ length C.cases },
}

/// Does the work of one worker. It passes `gate` at `InCase` before a case and at `AfterCase` after it.
pub(crate) fn share_of<C: Campaign, M: CaseResult, G: Gate>(
    alloc: Global,
    cases: &[Case],
    workers: Workers,
    worker: u32,
    gate: &G,
) -> Result<Share<C, M>, NoMemory>
    requires cases { cases.now ≡ C.cases }
    requires few { length cases.now ≤ most_cases }
    requires worker { worker < workers.count }
    ensures worker { IfOk result (λ share. share.run.worker ≡ worker) }
    ensures workers { IfOk result (λ share. share.run.workers ≡ workers.count) }
{
    let mut desk = CampaignDesk {
        alloc,
        cases,
        made: Queue::new(alloc),
        gate,
    };
    let run = run_cases(&mut desk, worker, workers)?;
    Ok(Share {
        run,
        made: desk.made,
        of: PhantomData,
    })
}

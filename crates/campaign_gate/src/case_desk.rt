//! The desk of a campaign's worker.
ghost use Rattle.std.specs.Prelude.{◌≡◌, ◌<◌, ◌≤◌, None, option_map, option_to_list, [], ◌∷◌, ◌++◌, map, length, slice_get, OnOk};
ghost use Rattle.ccp_base.specs.Limits.{most_cases};
ghost use Rattle.worker_desk.specs.Logs.{Logs};
ghost use Rattle.worker_desk.specs.declared.event.CaseEvent.TheVariants.{Passed, Ran};

use crate::case_result::CaseResult;
use crate::queue::Queue;
use ccp_base::{Gate, NoMemory, Point};
use flow_core::Case;
use std::alloc::Global;
use worker_desk::{CaseDesk, GatedDesk};

/// What a worker of a campaign works on: the cases of the campaign, and the results of those that it has run.
#[derive(Drop)]
pub(crate) struct CampaignDesk<'a, M: CaseResult, G: Gate> {
    pub(crate) alloc: Global,
    pub(crate) cases: &'a [Case],
    pub(crate) made: Queue<M>,
    pub(crate) gate: &'a G,
    ghost few: { length cases.now ≤ most_cases },
}

impl<'a, M: CaseResult, G: Gate> GatedDesk for CampaignDesk<'a, M, G> {
    ghost use Rattle.std.specs.Prelude.{◌<◌, None, map, length, slice_get, option_to_list};

    type Made = M;

    ghost log = { λ d. None };

    ghost results = { λ d. map M.of_case d.cases.now };

    ghost made = { λ d. d.made };

    ghost CanRun = { λ results made case. case < length results };

    ghost results_of = { λ results case. option_to_list (slice_get results case) };

    fn pass(&mut self, worker: u32, point: Point, case: u32) {
        self.gate.pass(worker, point, case);
    }

    fn run(&mut self, case: u32) -> Result<(), NoMemory> {
        let case = self.cases[case as usize].copy(self.alloc)?;
        self.made.put(M::make(self.alloc, case)?)
    }
}

impl<'a, M: CaseResult, G: Gate> CaseDesk for CampaignDesk<'a, M, G> {
    fn case_count(&self) -> u32 {
        self.cases.len() as u32
    }
}

//! The desk of a datapath worker over a table of flows.

ghost use Rattle.std.specs.Prelude.{◌≡◌, ℕ, ◌+◌, ◌<◌, ◌≤◌, Option, Some, None, option_map, IfSome, [], ◌∷◌, length};
ghost use Rattle.worker_desk.specs.Logs.{KnownLog, Logs};
ghost use Rattle.worker_desk.specs.Serving.{heard_count};
ghost use Rattle.worker_desk.specs.declared.event.Event.TheVariants.{Passed, Locked, Unlocked, Acked, Nudged};

use crate::flow::LockedFlow;
use crate::nudges::Nudges;
use crate::table::FlowTable;
use ccp_base::{Gate, Point};
use std::sync::{MutexGuard, Wait};
use worker_desk::{Desk, Heard, LockDesk};

/// The desk of a datapath worker over a table of flows.
#[derive(Drop)]
pub(crate) struct FlowDesk<'a, F: LockedFlow, N, R, G> {
    pub(crate) rt: &'a R,
    pub(crate) table: &'a FlowTable<F>,
    pub(crate) nudges: &'a N,
    pub(crate) gate: &'a G,
    pub(crate) held: Option<MutexGuard<'a, F>>,
    /// How many acknowledgements may still come; after the last one it waits forever.
    pub(crate) left: u64,
}

impl<'a, F: LockedFlow, N: Nudges, R: Wait, G: Gate> LockDesk for FlowDesk<'a, F, N, R, G> {
    ghost use Rattle.std.specs.Prelude.{◌≡◌, Some, None, length};
    ghost use Rattle.flow_table.specs.HeldFlows.{number_held, OfHeld};

    type Guard = MutexGuard<'a, F>;

    ghost log = { λ d. None };

    ghost held = { λ d. number_held (λ flow. F.number_of (F.case_of flow)) d.held };

    ghost flows = { λ d. length d.table.now };

    ghost coming = { λ d. d.left };

    ghost HasKept = { λ old new. OfHeld (λ before after. after ≡ before) old.held new.held };

    ghost HasReleased = { λ old guard. old.held ≡ Some guard };

    fn flow_count(&self) -> u32 {
        self.table.flows()
    }

    fn lock(&mut self, flow: u32) {
        self.held = Some(self.table.lock(self.rt, flow));
    }

    fn unlock(&mut self, _flow: u32) -> MutexGuard<'a, F> {
        let Some(guard) = self.held.take() else {
            unreachable!()
        };
        guard
    }

    fn pass(&mut self, worker: u32, point: Point, flow: u32) {
        self.gate.pass(worker, point, flow);
    }
}

impl<'a, F: LockedFlow, N: Nudges, R: Wait, G: Gate> Desk for FlowDesk<'a, F, N, R, G> {
    ghost use Rattle.flow_table.specs.HeldFlows.{OfHeld};

    ghost HasAcked = { λ old new answer. OfHeld (λ before after. F.HasHeard before after answer) old.held new.held };

    fn ack(&mut self, _worker: u32, _flow: u32) -> Heard {
        let Some(mut guard) = self.held.take() else {
            unreachable!()
        };
        let answer = guard.hear();
        self.held = Some(guard);
        if let Heard::Ended = answer {
            return answer;
        }
        if self.left == 0 {
            for _ in self.rt.forever() {}
            unreachable!()
        }
        self.left -= 1;
        answer
    }

    fn nudge(&mut self, flow: u32) {
        self.nudges.nudge(self.rt, flow);
    }
}

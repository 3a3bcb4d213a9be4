//! The desk of an agent worker: flows' numbers arrive over a channel, and each flow has its lock.
ghost use Rattle.std.specs.Prelude.{◌≡◌, ℕ, ◌+◌, ◌<◌, ◌≤◌, Option, Some, None, [], ◌∷◌, length};
ghost use Rattle.worker_desk.specs.Logs.{KnownLog, Logs};
ghost use Rattle.agent_loop.specs.Answering.{HasSettled};
ghost use Rattle.worker_desk.specs.declared.event.Event.TheVariants.{Passed, Locked, Unlocked, Received, Took, Settled};

use agent_core::{Answer, Ticket};
use ccp_base::{Gate, Point};
use crossbeam_channel::Receiver;
use flow_core::Cell;
use flow_table::FlowTable;
use std::alloc::Global;
use std::sync::{MutexGuard, Wait};
use worker_desk::{AgentDesk, LockDesk};

/// The desk of an agent worker of a live run.
#[derive(Drop)]
pub(crate) struct NudgedDesk<'a, R: Wait, G: Gate> {
    pub(crate) rt: &'a R,
    pub(crate) alloc: Global,
    pub(crate) table: &'a FlowTable<Cell>,
    pub(crate) nudges: &'a Receiver<u32, Global>,
    pub(crate) gate: &'a G,
    pub(crate) held: Option<MutexGuard<'a, Cell>>,
    /// How many numbers may still come; after the last one it waits forever.
    pub(crate) left: u64,
}

impl<'a, R: Wait, G: Gate> LockDesk for NudgedDesk<'a, R, G> {
    ghost use Rattle.std.specs.Prelude.{◌≡◌, Some, None, length};
    ghost use Rattle.flow_table.specs.HeldFlows.{number_held, OfHeld};

    type Guard = MutexGuard<'a, Cell>;

    ghost log = { λ d. None };

    ghost held = { λ d. number_held (λ cell. cell.case.flow) d.held };

    ghost flows = { λ d. length d.table.now };

    ghost coming = { λ d. d.left };

    ghost HasKept = { λ old new. OfHeld (λ before after. after ≡ before) old.held new.held };

    ghost HasReleased = { λ old guard. old.held ≡ Some guard };

    fn flow_count(&self) -> u32 {
        self.table.flows()
    }

    fn lock(&mut self, flow: u32) {
        self.held = Some(self.table.lock(self.rt, flow));
    }

    fn unlock(&mut self, _flow: u32) -> MutexGuard<'a, Cell> {
        let Some(guard) = self.held.take() else {
            unreachable!()
        };
        guard
    }

    fn pass(&mut self, worker: u32, point: Point, flow: u32) {
        self.gate.pass(worker, point, flow);
    }
}

impl<'a, R: Wait, G: Gate> AgentDesk for NudgedDesk<'a, R, G> {
    ghost use Rattle.flow_table.specs.HeldFlows.{OfHeld};
    ghost use Rattle.agent_loop.specs.Answering.{HasTaken, HasSettled};

    ghost HasTaken = { λ old new taken. OfHeld (λ before after. HasTaken before after taken) old.held new.held };

    ghost HasSettled = { λ old new answer. OfHeld (λ before after. HasSettled before after answer) old.held new.held };

    fn receive(&mut self) -> Option<u32> {
        if self.left == 0 {
            for _ in self.rt.forever() {}
            unreachable!()
        }
        self.left -= 1;
        match self.nudges.recv(self.rt) {
            Ok(flow) => Some(flow),
            Err(_) => None,
        }
    }

    fn take(&mut self, _flow: u32) -> Option<Ticket> {
        let Some(mut guard) = self.held.take() else {
            unreachable!()
        };
        let taken = guard.take(self.alloc);
        self.held = Some(guard);
        taken.ok()
    }

    fn settle(&mut self, _flow: u32, answer: Answer) {
        let Some(mut guard) = self.held.take() else {
            unreachable!()
        };
        settle_at(&mut guard, answer);
        self.held = Some(guard);
    }
}

/// Settles the answer if its ticket is out; else nothing changes.
// for the prover: both outcomes meet in one clause over the flow, before it goes back to the desk
fn settle_at(cell: &mut Cell, answer: Answer)
    ensures settled { HasSettled cell.old cell.new answer }
    ensures case { cell.new.case ≡ cell.old.case }
{
    match cell.settle(answer) {
        Ok(()) => {}
        // Nobody but the worker that took a ticket settles its answer.
        Err(stale) => drop(stale),
    }
}

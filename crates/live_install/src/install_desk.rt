//! The desk of an installer: texts built without a lock, entries and changes under the flow's lock.
ghost use Rattle.std.specs.Prelude.{◌≡◌, ℕ, ◌<◌, ◌≤◌, Option, Some, None, is_some, IfSome};
ghost use Rattle.std.specs.Prelude.{[], ◌∷◌, length, slice_get};
ghost use Rattle.std.proofs.Props.{props};
ghost use Rattle.worker_desk.specs.Logs.{KnownLog, Logs};
ghost use Rattle.worker_desk.specs.declared.event.Event.TheVariants.{Passed, Locked, Unlocked, Built};
ghost use Rattle.worker_desk.specs.declared.event.Event.TheVariants.{Installed, Changed};

use crate::rollout_flow::RolloutFlow;
use ccp_base::{Gate, Point};
use flow_table::FlowTable;
use open_flow::{Entry, entry_of};
use scene_members::OpenCase;
use std::alloc::Global;
use std::sync::{MutexGuard, Wait};
use worker_desk::LockDesk;

/// What the texts of a flow are built from.
#[derive(Clone, Copy)]
pub(crate) struct TextSource<'a> {
    alloc: Global,
    flow: u32,
    case: &'a OpenCase,
}

/// What came of building the text of a flow's step.
#[derive(Drop)]
pub(crate) struct BuiltText {
    flow: u32,
    step: u32,
    entry: Option<Entry>,
    ghost is_step: { IfSome entry (λ made. made.step ≡ step) } by { Prim.hlevel props },
}

/// The desk of an installer of a rollout.
#[derive(Drop)]
pub(crate) struct InstallDesk<'a, R: Wait, G: Gate> {
    pub(crate) rt: &'a R,
    pub(crate) alloc: Global,
    pub(crate) table: &'a FlowTable<RolloutFlow>,
    pub(crate) gate: &'a G,
    pub(crate) held: Option<MutexGuard<'a, RolloutFlow>>,
}

impl<'a, R: Wait, G: Gate> LockDesk for InstallDesk<'a, R, G> {
    ghost use Rattle.std.specs.Prelude.{◌≡◌, Some, None, length};
    ghost use Rattle.flow_table.specs.HeldFlows.{number_held, OfHeld};

    type Guard = MutexGuard<'a, RolloutFlow>;

    ghost log = { λ d. None };

    ghost held = { λ d. number_held (λ flow. flow.cell.case.flow) d.held };

    ghost flows = { λ d. length d.table.now };

    ghost HasKept = { λ old new. OfHeld (λ before after. after ≡ before) old.held new.held };

    ghost HasReleased = { λ old guard. old.held ≡ Some guard };

    fn flow_count(&self) -> u32 {
        self.table.flows()
    }

    fn lock(&mut self, flow: u32) {
        self.held = Some(self.table.lock(self.rt, flow));
    }

    fn unlock(&mut self, _flow: u32) -> MutexGuard<'a, RolloutFlow> {
        let Some(guard) = self.held.take() else {
            unreachable!()
        };
        guard
    }

    fn pass(&mut self, worker: u32, point: Point, flow: u32) {
        self.gate.pass(worker, point, flow);
    }
}

impl<'a, R: Wait, G: Gate> worker_desk::InstallDesk for InstallDesk<'a, R, G> {
    ghost use Rattle.std.specs.Prelude.{◌≡◌, Some, None, slice_get};
    ghost use Rattle.flow_table.specs.HeldFlows.{OfHeld};
    ghost use Rattle.live_install.specs.Installing.{IsTextOf, HasInstalled, HasChanged};

    type Source = TextSource<'a>;

    type Text = BuiltText;

    type Entry = Entry;

    ghost flow_from = { λ source. source.flow };

    ghost given_at = { λ source. None };

    ghost task_of = { λ text. record { flow = text.flow; step = text.step } };

    ghost source_at = { λ text. None };

    ghost IsOf = { λ desk source flow. slice_get desk.table.now flow ≡ Some source.case.now };

    ghost HasBuilt = { λ source step text. IsTextOf source.case.now step text.entry };

    ghost IsEntryOf = { λ text entry. text.entry ≡ Some entry };

    ghost step_of = { λ entry. entry.step };

    ghost HasInstalled = { λ old new entry is_next.
        OfHeld (λ before after. HasInstalled before.cell after.cell entry is_next) old.held new.held };

    ghost HasChanged = { λ old new changed.
        OfHeld (λ before after. HasChanged before.cell after.cell changed) old.held new.held };

    fn source(&self, flow: u32) -> TextSource<'a> {
        TextSource {
            alloc: self.alloc,
            flow,
            case: self.table.case(flow),
        }
    }

    fn build(source: TextSource<'a>, step: u32) -> BuiltText {
        BuiltText {
            flow: source.flow,
            step,
            entry: entry_at(source.alloc, source.case, step),
        }
    }

    #[tactic(auto, using(crate::proofs::OptionLemmas::some_itself))]
    fn take_entry(&mut self, text: BuiltText) -> Option<Entry> {
        text.entry
    }

    fn install(&mut self, _flow: u32, entry: Entry) -> bool {
        let Some(mut guard) = self.held.take() else {
            unreachable!()
        };
        let installed = guard.install(entry);
        self.held = Some(guard);
        installed
    }

    fn change(&mut self, _flow: u32) -> bool {
        let Some(mut guard) = self.held.take() else {
            unreachable!()
        };
        let changed = guard.change();
        self.held = Some(guard);
        changed
    }
}

/// The entry of a case's step; None if the case has no such step, or memory runs out.
fn entry_at(alloc: Global, case: &OpenCase, step: u32) -> Option<Entry>
    ensures step { IfSome result (λ entry. entry.step ≡ step) }
    ensures text { IfSome result (λ entry. slice_get case.now.steps step ≡ Some entry.text) }
{
    if step as usize >= case.steps.len() {
        return None;
    }
    match entry_of(alloc, case, step) {
        Ok(entry) => Some(entry),
        Err(_) => None,
    }
}

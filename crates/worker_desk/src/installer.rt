//! What installers do: they build texts without a lock, then install and change under the flow's lock.
ghost use Rattle.std.specs.Prelude.{◌≡◌, ℕ, ◌<◌, ◌≤◌, None, [], ◌∷◌, slice_index, length, is_some, IfSome};
ghost use Rattle.ccp_base.specs.Limits.{most_steps};
ghost use Rattle.worker_desk.specs.Logs.{Logs};
ghost use Rattle.worker_desk.specs.Serving.{flows_of_worker};
ghost use Rattle.worker_desk.specs.declared.event.Event.TheVariants.{Built};
ghost use Rattle.worker_desk.specs.Equipping.{installing, changing, tasks, tasks_at, Equips};

use crate::install_desk::InstallDesk;
use crate::receipt::{Duty, Equipped, InstallerShare, Receipt};
use crate::row::row_of;
use ccp_base::Point;

/// The most steps of a flow.
const STEPS: u32 = 16;

/// The work of an installer: the texts of the flows `f` with `f mod workers = first`, one of each flow in turn, in the
/// order of the steps.
pub fn run_installer<D: InstallDesk>(
    desk: &mut D,
    worker: u32,
    first: u32,
    workers: u32,
) -> Equipped
    requires workers { 1 ≤ workers }
    requires free { D.held desk.old ≡ None }
    ensures equipped { result ≡ record {
      worker = worker;
      flows = D.flows desk.old;
      share = record { first = first; workers = workers };
    } }
    ensures equips { Equips worker (tasks (flows_of_worker first workers (D.flows desk.old)) most_steps)
        (D.log desk.old) (D.log desk.new) }
{
    let flows = desk.flow_count();
    let (row, count) = row_of(flows, first, workers);
    for step in 0..STEPS {
        install_row(desk, worker, step, &row[..count]);
    }
    Receipt {
        duty: Duty {
            worker,
            flows,
            share: InstallerShare { first, workers },
        },
    }
}

/// One step of each flow of a row.
fn install_row<D: InstallDesk>(desk: &mut D, worker: u32, step: u32, row: &[u32])
    requires flows { (k : ℕ) → k < length row.now → slice_index row.now k < D.flows desk.old }
    requires free { D.held desk.old ≡ None }
    ensures equips { Equips worker (tasks_at step row.now) (D.log desk.old) (D.log desk.new) }
    ensures free { D.held desk.new ≡ None }
    ensures flows { D.flows desk.new ≡ D.flows desk.old }
{
    for place in 0..row.len() {
        install_step(desk, worker, row[place], step);
    }
}

/// A step of a flow: builds its text while no lock is held, installs what came of it, and changes the flow to it if it
/// is a program. A step for which memory runs out is left to the caller.
fn install_step<D: InstallDesk>(desk: &mut D, worker: u32, flow: u32, step: u32)
    requires flow { flow < D.flows desk.old }
    requires free { D.held desk.old ≡ None }
    ensures equips { Equips worker (record { flow = flow; step = step } ∷ []) (D.log desk.old) (D.log desk.new) }
    ensures free { D.held desk.new ≡ None }
    ensures flows { D.flows desk.new ≡ D.flows desk.old }
{
    let Some(entry) = build(desk, flow, step) else {
        return;
    };
    if !install(desk, flow, entry) {
        return;
    }
    desk.pass(worker, Point::AfterTake, flow);
    if change(desk, flow) {
        desk.pass(worker, Point::AfterSettle, flow);
    }
}

/// Builds the text of a flow's step while no lock is held; None if the flow has no such step, or memory runs out.
fn build<D: InstallDesk>(desk: &mut D, flow: u32, step: u32) -> Option<D::Entry>
    requires flow { flow < D.flows desk.old }
    requires free { D.held desk.old ≡ None }
    ensures log { Logs (D.log desk.old) (D.log desk.new) (Built flow step (is_some result) ∷ []) }
    ensures step { IfSome result (λ entry. D.step_of entry ≡ step) }
    ensures free { D.held desk.new ≡ None }
    ensures flows { D.flows desk.new ≡ D.flows desk.old }
{
    let text = D::build(desk.source(flow), step);
    desk.take_entry(text)
}

/// Puts an entry into the flow's library, under the flow's lock, and says whether it was the next one.
fn install<D: InstallDesk>(desk: &mut D, flow: u32, entry: D::Entry) -> bool
    requires flow { flow < D.flows desk.old }
    requires free { D.held desk.old ≡ None }
    ensures log { Logs (D.log desk.old) (D.log desk.new) (installing flow (D.step_of entry) result) }
    ensures free { D.held desk.new ≡ None }
    ensures flows { D.flows desk.new ≡ D.flows desk.old }
{
    desk.lock(flow);
    let is_next = desk.install(flow, entry);
    drop(desk.unlock(flow));
    is_next
}

/// Changes the flow to its library's next program, under the flow's lock, and says whether there was one.
fn change<D: InstallDesk>(desk: &mut D, flow: u32) -> bool
    requires flow { flow < D.flows desk.old }
    requires free { D.held desk.old ≡ None }
    ensures log { Logs (D.log desk.old) (D.log desk.new) (changing flow result) }
    ensures free { D.held desk.new ≡ None }
    ensures flows { D.flows desk.new ≡ D.flows desk.old }
{
    desk.lock(flow);
    let changed = desk.change(flow);
    drop(desk.unlock(flow));
    changed
}

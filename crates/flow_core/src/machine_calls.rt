//! The machine's calls as a flow makes them, with the clauses that a flow's proofs cite.
ghost use Rattle.std.specs.Prelude.{◌≡◌, ◌+◌, ◌<◌, [], length, None, Some};
ghost use Rattle.portus_core.specs.Epoch.{stops};
ghost use Rattle.fold_machine.specs.MachineState.{Fits};
ghost use Rattle.fold_machine.specs.Store.{slot_words};
ghost use Rattle.slot_pool.specs.Pool.{free_of};
ghost use Rattle.flow_core.specs.MachineCalls.{heard_on, outcome_and_env, ran_on};
ghost use Rattle.flow_lists.specs.Outbox.{AreOwned, AreAsMany, Gains, LosesFirst, IsToldNext, notice_left};
ghost use Rattle.flow_lists.specs.ReportWords.{with_fields};
ghost use Rattle.flow_core.specs.States.{outcome_by};

use crate::last_report::store_last;
use ccp_base::{Ack, Report, Told};
use flow_lists::Outbox;
use fold_machine::{Acked, Machine, Steps};
use reg_code::Checked;
use std::sync::ledger::Ledger;

// A function of its own: its clauses say the answer by a flow's definitions, which the proof of `hear` cites.
/// Runs an acknowledgement on the machine.
#[inline(always)]
pub(crate) fn run<L: Ledger>(
    machine: &mut Machine,
    code: &Checked,
    ack: &Ack,
    room: bool,
    steps: &mut Steps<L>,
) -> Acked
    requires { Fits machine.old code.now.code }
    ensures met { heard_on code.now.code machine.old ack.entry.now room ≡ outcome_and_env result machine.new }
    ensures stopped { machine.new.is_stopped ≡ stops (outcome_by result machine.new.report) }
    ensures further { machine.new.further ≡ machine.old.further }
    ensures fits { Fits machine.new code.now.code }
    ensures steps { steps.new ≡ steps.old + ran_on code.now.code machine.old ack.entry.now room }
{
    machine.ack(code, ack, room, steps)
}

/// Puts a report at the outbox's end, into one of the machine's further slots. Its fields are those of the machine's last
/// report; `report` has the other numbers.
#[inline(always)]
pub(crate) fn put_last_report(machine: &mut Machine, outbox: &mut Outbox, report: &Report)
    requires room { length outbox.old.slots < outbox.old.size }
    requires free { 0 < free_of machine.old.further }
    requires words { machine.old.further.words ≡ slot_words }
    ensures machine { machine.new ≡ record machine.old { further = machine.new.further } }
    ensures words { machine.new.further.words ≡ slot_words }
    ensures as_many { AreAsMany machine.old.further outbox.old.slots machine.new.further outbox.new.slots }
    ensures gained { Gains (with_fields machine.old.report report.entry.now)
        machine.old.further outbox.old.slots machine.new.further outbox.new.slots }
    ensures untold { outbox.new.untold ≡ outbox.old.untold }
    ensures size { outbox.new.size ≡ outbox.old.size }
{
    let slot = store_last(machine, report);
    outbox.push_slot(slot);
}

// A function of its own: here the slots are a machine, and its clauses say what changes of that.
/// Takes out what the next ticket has, into the place of a ticket's content. A report must wait, or the notice be untold.
pub(crate) fn pop_content(machine: &mut Machine, outbox: &mut Outbox, content: &mut Told)
    requires some { (outbox.old.slots ≡ []) × (outbox.old.untold ≡ None) → ⊥ }
    requires words { machine.old.further.words ≡ slot_words }
    requires owned { AreOwned machine.old.further outbox.old.slots }
    ensures told { IsToldNext (Some content.new) outbox.old.untold machine.old.further outbox.old.slots }
    ensures machine { machine.new ≡ record machine.old { further = machine.new.further } }
    ensures words { machine.new.further.words ≡ slot_words }
    ensures as_many { AreAsMany machine.old.further outbox.old.slots machine.new.further outbox.new.slots }
    ensures lost_first { LosesFirst machine.old.further outbox.old.slots machine.new.further outbox.new.slots }
    ensures untold { outbox.new.untold ≡ notice_left outbox.old.slots outbox.old.untold }
    ensures size { outbox.new.size ≡ outbox.old.size }
{
    outbox.pop_into(machine, content);
}

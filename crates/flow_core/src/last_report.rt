//! The last report of a machine, written into one of the machine's further slots. Its fields are copied from slot to slot.
ghost use Rattle.std.specs.Prelude.{◌≡◌, ◌+◌, ◌<◌, ◌≤◌, None, Some, option_map, length};
ghost use Rattle.slot_pool.specs.Pool.{words_at, free_of, ChangesSlot};
ghost use Rattle.flow_lists.specs.Outbox.{most_report_words, head_words, ReportFits, Stores};
ghost use Rattle.flow_lists.specs.ReportWords.{with_fields};

use ccp_base::Report;
use flow_lists::{HEAD_WORDS, report_head};
use fold_machine::Machine;
use slot_pool::{Full, Slot};

/// Takes a free slot and writes a report into it, whose fields are those of the machine's last report. `report` has the
/// other numbers.
#[inline(always)]
pub(crate) fn store_last(machine: &mut Machine, report: &Report) -> Slot
    requires free { 0 < free_of machine.old.further }
    requires words { most_report_words ≤ machine.old.further.words }
    ensures was_free { words_at machine.old.further result ≡ None }
    ensures changed { ChangesSlot machine.old.further machine.new.further result (words_at machine.new.further result) }
    ensures stored { Stores machine.new.further result (with_fields machine.old.report report.entry.now) }
    ensures free { free_of machine.new.further + 1 ≡ free_of machine.old.further }
    ensures machine { machine.new ≡ record machine.old { further = machine.new.further } }
{
    let head = last_head(machine, report);
    let slot = take_free_slot(machine);
    machine.set_slot_run(&slot, 0, &head);
    machine.copy_report(&slot, HEAD_WORDS as u32);
    slot
}

/// The words of the report that stand before its fields.
#[inline(always)]
fn last_head(machine: &Machine, report: &Report) -> [u64; HEAD_WORDS]
    ensures words { result ≡ head_words (with_fields machine.now.report report.entry.now) }
    ensures in_range { ReportFits (with_fields machine.now.report report.entry.now) }
{
    let mut words = report_head(report);
    words[HEAD_WORDS - 1] = machine.reported_words().len() as u64;
    words
}

/// A slot of a machine that has one left. Its words aren't cleared: the report is written over their first ones.
fn take_free_slot(machine: &mut Machine) -> Slot
    requires { 0 < free_of machine.old.further }
    ensures was_free { words_at machine.old.further result ≡ None }
    ensures taken { ChangesSlot machine.old.further machine.new.further result (words_at machine.new.further result) }
    ensures len { option_map (λ words. length words) (words_at machine.new.further result)
        ≡ Some machine.old.further.words }
    ensures free { free_of machine.new.further + 1 ≡ free_of machine.old.further }
    ensures machine { machine.new ≡ record machine.old { further = machine.new.further } }
{
    match machine.take_slot_as_is() {
        Ok(slot) => slot,
        Err(Full) => unreachable!(),
    }
}

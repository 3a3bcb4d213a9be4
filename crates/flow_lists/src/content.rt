//! What a ticket tells, in a place that stays: each ticket's content is read into it from the words of a slot.
ghost use Rattle.std.specs.Prelude.{◌≡◌, ◌+◌, ◌≤◌, None, length};
ghost use Rattle.ccp_base.specs.Limits.{most_fields};
ghost use Rattle.ccp_base.specs.declared.exchange.Report.{Report};
ghost use Rattle.slot_pool.specs.Pool.{IsOut, free_of, ChangesSlot};
ghost use Rattle.flow_lists.specs.Outbox.{most_report_words, Stores};
ghost use Rattle.flow_lists.specs.ReportWords.{report_in};

use crate::report_words::{HEAD_WORDS, field_count, narrow, read};
use ccp_base::{Report, Told, Values};
use slot_pool::{Slot, Slots};

/// Reads the report of a slot into the place of a ticket's content, and gives the slot back. It must be out.
pub(crate) fn take_content<P: Slots>(slots: &mut P, slot: Slot, content: &mut Told)
    requires out { IsOut (P.pool slots.old) slot }
    requires words { most_report_words ≤ (P.pool slots.old).words }
    ensures report { (report : Report) → Stores (P.pool slots.old) slot report → content.new ≡ Told.Report report }
    ensures given { ChangesSlot (P.pool slots.old) (P.pool slots.new) slot None }
    ensures free { free_of (P.pool slots.new) ≡ free_of (P.pool slots.old) + 1 }
    ensures rest { P.rest slots.new ≡ P.rest slots.old }
{
    read_content(slots.slot(&slot), content);
    slots.give_slot(slot);
}

/// Makes the report that words begin with a ticket's content.
fn read_content(words: &[u64], content: &mut Told)
    requires { most_report_words ≤ length words.now }
    ensures { content.new ≡ Told.Report (report_in words.now) }
{
    match content {
        Told::Report(report) => read_report(words, report),
        Told::Fault(_) => replace_content(words, content),
    }
}

/// Makes a report the one that words begin with.
fn read_report(words: &[u64], report: &mut Report)
    requires { most_report_words ≤ length words.now }
    ensures { report.new ≡ report_in words.now }
{
    report.flow = narrow(words[0]);
    report.program = narrow(words[1]);
    report.epoch = narrow(words[2]);
    report.first = words[3];
    report.end = words[4];
    report.now = words[5];
    report.cwnd = words[6];
    report.rate = words[7];
    let count = field_count(words[8]);
    set_values(&words[HEAD_WORDS..HEAD_WORDS + count], &mut report.fields);
}

/// Makes a list the one of these numbers, at most 64.
fn set_values(numbers: &[u64], values: &mut Values)
    requires { length numbers.now ≤ most_fields }
    ensures { values.new ≡ numbers.now }
{
    *values = Values::new();
    for number in numbers {
        values.push(*number);
    }
}

// A function of its own: few tickets call it, and it has a whole report in its frame.
/// As `read_content`, whatever the content was.
#[inline(never)]
fn replace_content(words: &[u64], content: &mut Told)
    requires { most_report_words ≤ length words.now }
    ensures { content.new ≡ Told.Report (report_in words.now) }
{
    *content = Told::Report(read(words));
}

//! Reports in the words of slots.
ghost use Rattle.std.specs.Prelude.{◌≡◌, ◌+◌, ◌<◌, ◌≤◌, min, None, length};
ghost use Rattle.ccp_base.specs.Limits.{most_fields};
ghost use Rattle.ccp_base.specs.declared.exchange.Report.{Report};
ghost use Rattle.slot_pool.specs.Pool.{words_at, IsOut, free_of, ChangesSlot};
ghost use Rattle.flow_lists.specs.Outbox.{most_report_words, head_words, ReportFits, Stores};
ghost use Rattle.flow_lists.specs.ReportWords.{WritesOver, narrow, report_in};

use ccp_base::{FIELDS, Report, Values};
use slot_pool::{Full, Slot, Slots};

/// How many words stand before the fields of a report: its numbers, and how many fields it has.
pub const HEAD_WORDS: usize = 9;

/// How many words of a slot no report takes. The longest report takes 73, and a slot of 80 is ten cache lines of 64
/// bytes.
const SPARE_WORDS: usize = 7;

/// How many words a slot must have to hold a report.
pub const REPORT_WORDS: u32 = (HEAD_WORDS + FIELDS as usize + SPARE_WORDS) as u32;

const _: () = prove!(REPORT_WORDS == 80);

/// Takes a free slot and writes a report into it.
pub(crate) fn store<P: Slots>(slots: &mut P, report: &Report) -> Slot
    requires free { 0 < free_of (P.pool slots.old) }
    requires words { most_report_words ≤ (P.pool slots.old).words }
    ensures was_free { words_at (P.pool slots.old) result ≡ None }
    ensures changed { ChangesSlot (P.pool slots.old) (P.pool slots.new) result (words_at (P.pool slots.new) result) }
    ensures stored { Stores (P.pool slots.new) result report.entry.now }
    ensures free { free_of (P.pool slots.new) + 1 ≡ free_of (P.pool slots.old) }
    ensures rest { P.rest slots.new ≡ P.rest slots.old }
{
    let slot = match slots.take_slot() {
        Ok(slot) => slot,
        Err(Full) => unreachable!(),
    };
    write(slots, &slot, 0, &report_head(report));
    write(slots, &slot, HEAD_WORDS as u32, report.fields.as_slice());
    slot
}

/// The words of a report that stand before its fields.
#[inline(always)]
pub fn report_head(report: &Report) -> [u64; HEAD_WORDS]
    ensures words { result ≡ head_words report.entry.now }
    ensures in_range { ReportFits report.entry.now }
{
    [
        u64::from(report.flow),
        u64::from(report.program),
        u64::from(report.epoch),
        report.first,
        report.end,
        report.now,
        report.cwnd,
        report.rate,
        u64::from(report.fields.len()),
    ]
}

/// Writes words into a slot, from a place on. The slot must be out.
fn write<P: Slots>(slots: &mut P, slot: &Slot, at: u32, words: &[u64])
    requires out { IsOut (P.pool slots.old) slot.now }
    requires within { at + length words.now ≤ most_report_words }
    requires words { most_report_words ≤ (P.pool slots.old).words }
    ensures written { WritesOver slot.now at words.now (P.pool slots.old) (P.pool slots.new) }
    ensures out { IsOut (P.pool slots.new) slot.now }
    ensures free { free_of (P.pool slots.new) ≡ free_of (P.pool slots.old) }
    ensures rest { P.rest slots.new ≡ P.rest slots.old }
{
    let mut at = at;
    let mut left = words;
    while let Some((word, rest)) = left.split_first() {
        slots.set_slot(slot, at, *word);
        at += 1;
        left = rest;
    }
}

/// Reads the report of a slot and gives the slot back. It must be out.
pub(crate) fn take_report<P: Slots>(slots: &mut P, slot: Slot) -> Report
    requires out { IsOut (P.pool slots.old) slot }
    requires words { most_report_words ≤ (P.pool slots.old).words }
    ensures report { (report : Report) → Stores (P.pool slots.old) slot report → result ≡ report }
    ensures given { ChangesSlot (P.pool slots.old) (P.pool slots.new) slot None }
    ensures free { free_of (P.pool slots.new) ≡ free_of (P.pool slots.old) + 1 }
    ensures rest { P.rest slots.new ≡ P.rest slots.old }
{
    let report = read(slots.slot(&slot));
    slots.give_slot(slot);
    report
}

/// The report that words begin with.
pub(crate) fn read(words: &[u64]) -> Report
    requires { most_report_words ≤ length words.now }
    ensures { result ≡ report_in words.now }
{
    let count = field_count(words[8]);
    Report {
        flow: narrow(words[0]),
        program: narrow(words[1]),
        epoch: narrow(words[2]),
        first: words[3],
        end: words[4],
        now: words[5],
        cwnd: words[6],
        rate: words[7],
        fields: Values::from_slice(&words[HEAD_WORDS..HEAD_WORDS + count]),
    }
}

/// How many fields a report has, by the word of their number.
pub(crate) fn field_count(word: u64) -> usize
    ensures { result ≡ min word most_fields }
{
    word.min(u64::from(FIELDS)) as usize
}

/// A number of 32 bits that a word holds.
pub(crate) fn narrow(word: u64) -> u32
    ensures { result ≡ narrow word }
{
    word.min(u64::from(u32::MAX)) as u32
}

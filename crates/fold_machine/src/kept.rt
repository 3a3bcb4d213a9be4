//! What the machine keeps between acknowledgements: start values, resets, written values and the report.
ghost use Rattle.std.specs.Prelude.{◌≡◌, ◌+◌, ◌≤◌, length, slice_index};
ghost use Rattle.ccp_base.specs.Limits.{most_fields};
ghost use Rattle.reg_code.specs.AcceptedCode.{sizes_of};
ghost use Rattle.reg_code.specs.CodeStep.{reset_of};
ghost use Rattle.reg_code.specs.CodeStart.{with_value, with_values, declared_kept};
ghost use Rattle.reg_code.specs.Places.{all_places, reports_place};
ghost use Rattle.fold_machine.specs.Store.{slot_words};
ghost use Rattle.fold_machine.specs.Layout.{HasRoom, IsFew, KeepsOthers, words_from, kept_in};
ghost use Rattle.fold_machine.specs.KeptWords.{declared_words, reset_words};
ghost use Rattle.fold_machine.specs.Works.{HaveStartValues, IsReset};

use crate::places::{CWND, RATE, REPORTS, ZERO};
use crate::store::Store;
use ccp_base::{FieldReg, Fields};
use reg_code::{Code, Sizes, Start, places};

/// Copies `count` report fields from the working words.
#[cold]
#[inline(never)]
pub(crate) fn keep_report(store: &mut Store, words: &[u64], count: usize)
    requires count { count ≤ most_fields }
    requires words { length words.now ≡ all_places }
    requires full { length store.old.report ≡ slot_words }
    ensures copied { words_from store.new.report 0 count ≡ words_from words.now reports_place count }
    ensures length { length store.new.report ≡ slot_words }
    ensures others { store.new ≡ record store.old { report = store.new.report } }
{
    store.set_report(&words[places::REPORTS..places::REPORTS + count]);
}

/// Writes the start values, from a place on.
fn declare_from(store: &mut Store, starts: &[Start], first: u32)
    requires { first + length starts.now ≤ slot_words }
    ensures { store.new ≡ record store.old { registers = declared_words starts.now first store.old.registers } }
{
    let mut at = first;
    let mut left = starts;
    while let Some((start, rest)) = left.split_first() {
        store.set_register(at, start.value);
        at += 1;
        left = rest;
    }
}

/// Writes the start value of each volatile register among the working words, from a place on.
fn reset_from(words: &mut [u64], starts: &[Start], first: usize)
    requires { first + length starts.now ≤ length words.old }
    ensures { words.new ≡ reset_words starts.now first words.old }
{
    let mut at = first;
    let mut left = starts;
    while let Some((start, rest)) = left.split_first() {
        if start.volatile {
            words[at] = start.value;
        }
        at += 1;
        left = rest;
    }
}

/// Writes every register's start value, and makes `now` the time zero.
pub(crate) fn declare(store: &mut Store, code: &Code, now: u64)
    requires { HasRoom (sizes_of code.now) store.old.registers }
    ensures declared { HaveStartValues code.now now store.old.registers store.new.registers }
    ensures others { KeepsOthers store.old store.new }
{
    store.set_register(ZERO, now);
    declare_from(store, code.reports(), REPORTS);
    declare_from(
        store,
        code.controls(),
        REPORTS + code.reports().len() as u32,
    );
}

/// Writes the start value of each volatile register among the working words.
pub(crate) fn reset(words: &mut [u64], code: &Code)
    requires few { IsFew (sizes_of code.now) }
    requires full { length words.old ≡ all_places }
    ensures reset { IsReset code.now words.old words.new }
    ensures full { length words.new ≡ all_places }
{
    reset_from(words, code.reports(), places::REPORTS);
    reset_from(words, code.controls(), places::CONTROLS);
}

/// Writes values in order; a control variable that doesn't exist is ignored.
pub(crate) fn write_values(store: &mut Store, sizes: Sizes, values: &Fields)
    requires { HasRoom sizes store.old.registers }
    ensures written { kept_in sizes store.new.registers ≡ with_values values.now (kept_in sizes store.old.registers) }
    ensures others { KeepsOthers store.old store.new }
{
    for (reg, value) in values.as_slice() {
        write_value(store, sizes, *reg, *value);
    }
}

fn write_value(store: &mut Store, sizes: Sizes, reg: FieldReg, value: u64)
    requires { HasRoom sizes store.old.registers }
    ensures written { kept_in sizes store.new.registers ≡ with_value reg value (kept_in sizes store.old.registers) }
    ensures others { KeepsOthers store.old store.new }
{
    match reg {
        FieldReg::Cwnd => store.set_register(CWND, value),
        FieldReg::Rate => store.set_register(RATE, value),
        FieldReg::Control(i) => {
            if usize::from(i) < sizes.controls {
                store.set_register(REPORTS + sizes.reports as u32 + u32::from(i), value);
            }
        }
    }
}

//! The text of a rollout: for each flow its entries, changes, faults, reports and end.
ghost use Rattle.std.specs.Prelude.{◌≡◌, ◌≤◌, ◌++◌, IfOk, OnOk, map};
ghost use Rattle.std.specs.List.{All};
ghost use Rattle.report_lines.specs.FaultLine.{placed_line};
ghost use Rattle.open_flow.specs.Entries.{installed_of, step_place};
ghost use Rattle.live_install.specs.RolloutText.{fault_lines, fields_at, fields_of, flow_line, last_fields, last_line};
ghost use Rattle.live_install.specs.RolloutText.{rollout_text, shown_lines};
ghost use Rattle.live_install.specs.BookText.{account_in, book_text, books_text, end_in, failures_in};
ghost use Rattle.live_install.specs.WholeBooks.{IsRightBook, flows_of};

use crate::entry_lines::{put_changes, put_entries};
use ccp_base::{Bytes, NoMemory, Notice, Place, Report};
use flow_core::EpochLine;
use open_flow::{Entry, OpenBook, OpenBooks, built_at};
use portus_core::Decl;
use report_lines::{End, put_end, put_fault, put_flow_head, put_report};
use std::alloc::Global;

/// The text of a rollout: of each book its flow, its entries, its changes, its faults with their places, its reports,
/// and how the flow stands at the end. The fields and places are those of the entries. If each book has the state
/// after its word, it is the rollout text of these words.
pub fn rollout_text(alloc: Global, books: &OpenBooks) -> Result<Bytes, NoMemory>
    ensures text { IfOk result (λ text. text ≡ books_text books.now) }
    ensures rollout { All IsRightBook books.now → IfOk result (λ text. text ≡ rollout_text (flows_of books.now)) }
{
    let mut text = Bytes::new(alloc);
    put_books(alloc, &mut text, books.as_slice())?;
    Ok(text)
}

fn put_books(alloc: Global, text: &mut Bytes, books: &[OpenBook]) -> Result<(), NoMemory>
    ensures { OnOk result (text.new ≡ text.old ++ books_text books.now) }
{
    let mut left = books;
    while let Some((book, rest)) = left.split_first() {
        put_book(alloc, text, book)?;
        left = rest;
    }
    Ok(())
}

fn put_book(alloc: Global, text: &mut Bytes, book: &OpenBook) -> Result<(), NoMemory>
    ensures { OnOk result (text.new ≡ text.old ++ book_text book.now) }
{
    let entries = book.entries.as_slice();
    put_flow(text, book.case.flow, book.case.name.as_slice())?;
    put_entries(alloc, text, book.installed.as_slice(), entries)?;
    put_changes(alloc, text, book.epochs.as_slice())?;
    put_faults(text, entries, book.faults.as_slice())?;
    put_reports(text, entries, book.reports.as_slice())?;
    put_last(text, book)
}

fn put_flow(text: &mut Bytes, flow: u32, name: &[u8]) -> Result<(), NoMemory>
    ensures { OnOk result (text.new ≡ text.old ++ flow_line flow name.now) }
{
    put_flow_head(text, flow, name)?;
    text.push(b'\n')?;
    Ok(())
}

fn put_faults(text: &mut Bytes, entries: &[Entry], faults: &[Notice]) -> Result<(), NoMemory>
    ensures { OnOk result (text.new ≡ text.old ++ fault_lines (failures_in entries.now faults.now)) }
{
    let mut left = faults;
    while let Some((notice, rest)) = left.split_first() {
        put_notice(text, entries, notice)?;
        left = rest;
    }
    Ok(())
}

fn put_notice(text: &mut Bytes, entries: &[Entry], notice: &Notice) -> Result<(), NoMemory>
    ensures { OnOk result (text.new ≡ text.old ++ placed_line notice.entry.now
        (step_place entries.now notice.entry.now.program notice.entry.now.index)) }
{
    match place_at(entries, notice.program, notice.index) {
        None => Ok(()),
        Some(place) => put_fault(text, notice, place),
    }
}

/// The place of an instruction of a step's code; None if the step has no code, or its code no such instruction.
fn place_at(entries: &[Entry], step: u32, index: u16) -> Option<Place>
    ensures { result ≡ step_place entries.now step index }
{
    match built_at(entries, step) {
        None => None,
        Some(built) => built.places.as_slice().get(usize::from(index)).copied(),
    }
}

fn put_reports(text: &mut Bytes, entries: &[Entry], reports: &[Report]) -> Result<(), NoMemory>
    ensures { OnOk result (text.new ≡ text.old ++ shown_lines (map installed_of entries.now) reports.now) }
{
    let mut left = reports;
    while let Some((report, rest)) = left.split_first() {
        put_report(text, fields_at(entries, report.program), report)?;
        left = rest;
    }
    Ok(())
}

/// The fields of a step's program; none if the step has no program.
fn fields_at<'a>(entries: &'a [Entry], step: u32) -> &'a [Decl]
    ensures { result.now ≡ fields_at (map installed_of entries.now) step }
{
    match entries.get(step as usize) {
        None => &[],
        Some(entry) => fields_of(entry),
    }
}

fn fields_of<'a>(entry: &'a Entry) -> &'a [Decl]
    ensures { result.now ≡ fields_of (installed_of entry.now) }
{
    match entry.answer() {
        Ok(built) => built.program.fields.as_slice(),
        Err(_) => &[],
    }
}

/// Appends the last line of a flow to a text.
fn put_last(text: &mut Bytes, book: &OpenBook) -> Result<(), NoMemory>
    ensures { OnOk result (text.new ≡ text.old ++ last_line (account_in book.now)) }
{
    let end = end_in(book);
    let fields = last_fields(book.entries.as_slice(), book.epochs.as_slice());
    put_end(text, fields, book.reports.len() as u64, &end)
}

/// The fields of the last epoch's program; none if there is no epoch.
fn last_fields<'a>(entries: &'a [Entry], epochs: &[EpochLine]) -> &'a [Decl]
    ensures { result.now ≡ last_fields (map installed_of entries.now) epochs.now }
{
    match epochs.last() {
        None => &[],
        Some(epoch) => fields_at(entries, epoch.program),
    }
}

/// How a book's flow stands at the end.
fn end_in(book: &OpenBook) -> End
    ensures { result ≡ end_in book.now }
{
    End {
        acks: u64::from(book.acks),
        first: book.first,
        stopped: book.machine.is_stopped(),
        cwnd: book.machine.cwnd(),
        rate: book.machine.rate(),
        fields: book.machine.fields(),
    }
}

//! The text of a live run: for each flow its epochs, faults with their places, tickets and end.
ghost use Rattle.std.specs.Prelude.{◌≡◌, ◌++◌, IfOk, OnOk};
ghost use Rattle.std.specs.List.{All};
ghost use Rattle.flow_core.specs.LiveText.{sources_of};
ghost use Rattle.flow_core.specs.Words.{acks_in};
ghost use Rattle.live_lines.specs.FlowParts.{body_text};
ghost use Rattle.campaign_report.specs.BookText.{account_in, book_text, books_text, end_in, last_program};
ghost use Rattle.campaign_report.specs.BooksRead.{IsBookRead, read_text};

use crate::programs::CasePlaces;
use ccp_base::{Bytes, NoMemory, Notice};
use flow_core::{Book, EpochLine, Letter};
use live_lines::{FlowPart, PlacedFaults, put_fault_lines, put_flow_body, put_flow_line};
use reg_compiler::{Built, Builts};
use report_lines::End;
use std::alloc::Global;

/// The text of a live run: of each book its flow, its epochs, its faults with their places, its tickets, and how the
/// flow stands at the end. The fields and places are those of the programs with the numbers that the book names. If
/// each book has the state after its word, read over the sources of the programs, it is the live text of these words.
pub fn live_text(alloc: Global, books: &[Book], programs: &Builts) -> Result<Bytes, NoMemory>
    ensures text { IfOk result (λ text. text ≡ books_text programs.now books.now) }
    ensures live { All (IsBookRead programs.now) books.now
        → IfOk result (λ text. text ≡ read_text programs.now books.now) }
{
    let mut text = Bytes::new(alloc);
    put_books(&mut text, programs.as_slice(), books)?;
    Ok(text)
}

fn put_books(text: &mut Bytes, programs: &[(u32, Built)], books: &[Book]) -> Result<(), NoMemory>
    ensures { OnOk result (text.new ≡ text.old ++ books_text programs.now books.now) }
{
    let mut left = books;
    while let Some((book, rest)) = left.split_first() {
        put_book(text, programs, book)?;
        left = rest;
    }
    Ok(())
}

fn put_book(text: &mut Bytes, programs: &[(u32, Built)], book: &Book) -> Result<(), NoMemory>
    ensures { OnOk result (text.new ≡ text.old ++ book_text programs.now book.now) }
{
    let case = &book.case;
    put_flow_line(text, case.flow, &case.name, &case.agent)?;
    put_body(text, programs, book)
}

/// Appends a book's part of the text after its flow's first line.
fn put_body(text: &mut Bytes, programs: &[(u32, Built)], book: &Book) -> Result<(), NoMemory>
    ensures { OnOk result (text.new
        ≡ text.old ++ body_text (sources_of programs.now) (account_in programs.now book.now)) }
{
    let case = &book.case;
    let faults = BookFaults {
        places: CasePlaces { programs, case },
        faults: book.faults.as_slice(),
    };
    let epochs = book.epochs.as_slice();
    let part = FlowPart {
        epochs,
        tickets: book.tickets.as_slice(),
        held: book.held,
        program: last_program(epochs),
        end: &end_in(book),
    };
    put_flow_body(text, programs, &part, &faults)
}

/// The faults of a book, at the places of its case's instructions.
#[derive(Clone, Copy)]
struct BookFaults<'a> {
    places: CasePlaces<'a>,
    faults: &'a [Notice],
}

impl<'a> PlacedFaults for BookFaults<'a> {
    ghost use Rattle.std.specs.Prelude.{map};
    ghost use Rattle.campaign_report.specs.BookText.{placed_failure};

    ghost failures = { λ book. map (placed_failure book.places.programs.now book.places.case.now) book.faults.now };

    fn put(&self, text: &mut Bytes) -> Result<(), NoMemory> {
        put_fault_lines(text, &self.places, self.faults)
    }

    fn count(&self) -> usize {
        self.faults.len()
    }
}

/// How a book's flow stands at the end.
fn end_in(book: &Book) -> End
    ensures { result ≡ end_in book.now }
{
    End {
        acks: acks_in(book.word.as_slice()),
        first: book.first,
        stopped: book.machine.is_stopped(),
        cwnd: book.machine.cwnd(),
        rate: book.machine.rate(),
        fields: book.machine.fields(),
    }
}

/// The program of the last epoch, 0 if there is none.
fn last_program(epochs: &[EpochLine]) -> u32
    ensures { result ≡ last_program 0 epochs.now }
{
    let mut program = 0;
    for epoch in epochs {
        program = epoch.program;
    }
    program
}

/// How many of the letters are acknowledgements.
fn acks_in(word: &[Letter]) -> u64
    ensures { result ≡ acks_in word.now }
{
    let mut left = word;
    let mut count = 0;
    while let Some((letter, rest)) = left.split_first() {
        if let Letter::A = letter {
            count += 1;
        }
        left = rest;
    }
    count
}

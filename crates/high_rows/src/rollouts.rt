//! Texts of rollouts, of flows whose letters are made in a given order.
ghost use Rattle.std.specs.Prelude.{◌≡◌, ◌<◌};

use ccp_base::{Bytes, NoMemory};
use fold_machine::Steps;
use live_install::{Entry, OpenBook, OpenBooks, OpenCell, OpenLetter, rollout_text};
use scenario_json::calls::rollout_scene;
use scenario_json::{OpenCase, OpenCases};
use std::alloc::Global;
use std::marker::Brand;
use std::process::Abort;
use std::sync::ledger::{Blank, Ledger};
use std::test::Fail;

/// Two flows over a trace with one chance each 10 ms, with windows of three segments and of two. The second step of the
/// first flow takes 3 from 5 at each acknowledgement, and that of the second flow reports when two segments came.
const TWO: &[u8] =
    b"{\"version\":1,\"programs\":{\"p\":\"(def) (when true (report))\",\"q\":\"(def (x 5)) (when true (:= x (- x 3)))\",\"r\":\"(def (Report (volatile acked 0))) (when true (:= Report.acked (+ Report.acked Ack.bytes_acked)) (fallthrough)) (when (> Report.acked 2000) (report))\"},\"traces\":{\"t\":\"10\\n\"},\"cases\":[{\"name\":\"a\",\"trace\":\"t\",\"mss\":1448,\"queue\":10,\"delay_us\":20000,\"timeout_us\":1000000,\"acks\":4,\"cwnd\":4344,\"steps\":[\"p\",\"q\"]},{\"name\":\"b\",\"trace\":\"t\",\"mss\":1448,\"queue\":10,\"delay_us\":20000,\"timeout_us\":1000000,\"acks\":3,\"cwnd\":2896,\"steps\":[\"p\",\"r\"]}]}";

/// Of the first flow: an acknowledgement before the first change, one that is reported, and two after the second
/// change, of which the last one faults.
const FAULTING: [OpenLetter; 8] = [
    OpenLetter::A,
    OpenLetter::I,
    OpenLetter::G,
    OpenLetter::A,
    OpenLetter::I,
    OpenLetter::G,
    OpenLetter::A,
    OpenLetter::A,
];

/// The text of the first flow after its word.
const FAULTING_TEXT: &[u8] =
    b"flow 0 case=a\nstep 0 installed at=1\nstep 1 installed at=2\nepoch 0 step=0 at=1 cwnd=4344\nepoch 1 step=1 at=2 cwnd=4344\nfault epoch=1 ack=3 kind=Underflow at=1:31\nreport program=0 epoch=0 span=1..2 now=40000 cwnd=4344 rate=0\nend acks=4 reports=1 tail=2..4 stopped=yes cwnd=4344 rate=0\n";

/// Of the second flow: both entries before the first change, an acknowledgement that is reported, and two after the
/// second change, which are reported together.
const REPORTING: [OpenLetter; 7] = [
    OpenLetter::I,
    OpenLetter::I,
    OpenLetter::G,
    OpenLetter::A,
    OpenLetter::G,
    OpenLetter::A,
    OpenLetter::A,
];

/// The text of the second flow after its word.
const REPORTING_TEXT: &[u8] =
    b"flow 1 case=b\nstep 0 installed at=0\nstep 1 installed at=0\nepoch 0 step=0 at=0 cwnd=2896\nepoch 1 step=1 at=1 cwnd=2896\nreport program=0 epoch=0 span=0..1 now=30000 cwnd=2896 rate=0\nreport program=1 epoch=1 span=1..3 now=50000 cwnd=2896 rate=0 acked=2896\nend acks=3 reports=2 tail=3..3 stopped=no cwnd=2896 rate=0 acked=0\n";

/// Installs the entry of the next step, and says whether there was one.
fn install(alloc: Global, cell: &mut OpenCell) -> Result<bool, NoMemory> {
    let step = cell.entries().len();
    let Some(text) = cell.case().steps.as_slice().get(step) else {
        return Ok(false);
    };
    let entry = Entry::make(alloc, step as u32, text.as_slice())?;
    Ok(cell.install(entry).is_ok())
}

/// Makes a letter, and says whether it was legal.
fn make<L: Ledger>(
    alloc: Global,
    cell: &mut OpenCell,
    letter: OpenLetter,
    steps: &mut Steps<L>,
) -> Result<bool, NoMemory> {
    match letter {
        OpenLetter::A => Ok(cell.ack(steps).is_ok()),
        OpenLetter::I => install(alloc, cell),
        OpenLetter::G => Ok(cell.change().is_ok()),
    }
}

/// Makes the letters of a word, and says whether each was legal.
fn make_all<L: Ledger>(
    alloc: Global,
    cell: &mut OpenCell,
    word: &[OpenLetter],
    blank: Blank,
) -> Result<bool, NoMemory>
    requires name { blank.name ≡ L.name }
    requires parts { blank.parts ≡ L.parts }
    requires some { 0 < blank.parts }
{
    let mut steps = Steps::<L>::new(blank);
    for letter in word {
        if !make(alloc, cell, *letter, &mut steps)? {
            return Ok(false);
        }
    }
    Ok(true)
}

/// Makes the letters of a word, and says whether each was legal.
fn make_word(alloc: Global, cell: &mut OpenCell, word: &[OpenLetter]) -> Result<bool, NoMemory> {
    make_all::<Brand>(alloc, cell, word, Blank::new(1))
}

/// The flow of the case at a place, without a letter.
fn flow_at(alloc: Global, cases: &OpenCases, place: usize) -> Result<OpenCell, Fail> {
    match cases.as_slice().get(place) {
        Some(case) => Ok(OpenCell::new(alloc, case.copy(alloc)?)?),
        None => Err("no case")?,
    }
}

/// The flow of the case at a place, without a letter.
fn fresh_flow(alloc: Global, place: usize) -> Result<OpenCell, Fail> {
    let cases = rollout_scene(alloc, TWO)?;
    let cell = flow_at(alloc, &cases, place);
    drop(cases);
    cell
}

/// The book of a flow whose word is complete.
fn book(cell: OpenCell) -> Result<OpenBook, Fail> {
    if cell.is_complete() {
        return Ok(cell.finish());
    }
    drop(cell);
    Err("the word isn't complete".into())
}

/// The text of one book.
fn text_of(alloc: Global, book: OpenBook) -> Result<Bytes, Fail> {
    let mut books = OpenBooks::new(alloc);
    books.push(book)?;
    let text = rollout_text(alloc, &books);
    drop(books);
    Ok(text?)
}

/// Whether this is the text of a flow after its word.
fn shows(alloc: Global, cell: OpenCell, expected: &[u8]) -> Result<bool, Fail> {
    let text = text_of(alloc, book(cell)?)?;
    Ok(text.as_slice() == expected)
}

/// Whether this is the text of the flow at a place after a word.
fn has_text(
    alloc: Global,
    place: usize,
    word: &[OpenLetter],
    expected: &[u8],
) -> Result<bool, Fail> {
    let mut cell = fresh_flow(alloc, place)?;
    match make_word(alloc, &mut cell, word) {
        Ok(true) => shows(alloc, cell, expected),
        _ => {
            drop(cell);
            Ok(false)
        }
    }
}

#[test]
fn a_change_after_an_acknowledgement_and_a_fault(rt: HostRuntime) -> Result<(), Fail> {
    assert!(rt; has_text(rt.alloc(), 0, &FAULTING, FAULTING_TEXT)?);
    Ok(())
}

#[test]
fn two_entries_before_a_change_and_reports_with_fields(rt: HostRuntime) -> Result<(), Fail> {
    assert!(rt; has_text(rt.alloc(), 1, &REPORTING, REPORTING_TEXT)?);
    Ok(())
}

/// Whether a case is the same as its copy, which is dropped then.
fn is_same(case: &OpenCase, copy: OpenCase) -> bool {
    let same = case.same(&copy);
    drop(copy);
    same
}

/// Whether the first of two cases is the same as its copy, and not as the second one.
fn are_told_apart(alloc: Global, cases: &[OpenCase]) -> Result<bool, Fail> {
    let [first, second] = cases else {
        return Err("two cases".into());
    };
    let copy = first.copy(alloc)?;
    Ok(is_same(first, copy) && !first.same(second))
}

#[test]
fn a_case_is_the_same_as_its_copy_alone(rt: HostRuntime) -> Result<(), Fail> {
    let cases = rollout_scene(rt.alloc(), TWO)?;
    let apart = are_told_apart(rt.alloc(), cases.as_slice());
    drop(cases);
    assert!(rt; apart?);
    Ok(())
}

//! The letters of a flow's tickets are read off the lines of a live text.
ghost use Rattle.std.specs.Prelude.{◌≡◌, ◌++◌, IfOk, OnOk, Some};
ghost use Rattle.run_audit.specs.Fronts.{bytes_found};
ghost use Rattle.run_audit.specs.Marks.{marks_in, marked_number, number_by, past, text_marks};

use crate::mark::{Mark, Marks};
use ccp_base::{NoMemory, Separator, first_part, numeral};
use flow_core::Letter;
use std::alloc::Global;

/// The letters of a flow's tickets, read off the lines of its part after the first, up to the line of its end.
pub fn read_marks(alloc: Global, text: &[u8]) -> Result<Marks, NoMemory>
    ensures { IfOk result (λ marks. marks ≡ text_marks text.now) }
{
    let mut marks = Marks::new(alloc);
    let mut left = text;
    while !left.is_empty() {
        let (line, rest) = first_part(left, Separator::LineFeed);
        if line.starts_with(b"end ") {
            return Ok(marks);
        }
        put_marks(&mut marks, line)?;
        left = rest;
    }
    Ok(marks)
}

/// Appends the two letters of a line's ticket if the line has both counts.
fn put_marks(marks: &mut Marks, line: &[u8]) -> Result<(), NoMemory>
    ensures { OnOk result (marks.new ≡ marks.old ++ marks_in line.now) }
{
    let Some(taken) = number_by(line, b"taken=") else {
        return Ok(());
    };
    let Some(answered) = number_by(line, b"answered=") else {
        return Ok(());
    };
    marks.push(Mark {
        at: taken,
        letter: Letter::T,
    })?;
    marks.push(Mark {
        at: answered,
        letter: Letter::C,
    })?;
    Ok(())
}

/// The number that follows a name in a line.
fn number_by(line: &[u8], name: &[u8]) -> Option<u64>
    ensures { result ≡ number_by name.now line.now }
{
    first_number(after_name(line, name)?)
}

/// The first word of a text as a number.
fn first_number(text: &[u8]) -> Option<u64>
    ensures { result ≡ marked_number (Some text.now) }
{
    if text.is_empty() {
        return None;
    }
    let (word, _) = first_part(text, Separator::Blank);
    numeral(word)
}

/// What follows the first place at which a line has this name.
fn after_name<'a>(line: &'a [u8], name: &[u8]) -> Option<&'a [u8]>
    ensures { bytes_found result ≡ past name.now line.now }
{
    let mut left = line;
    while let Some((_, rest)) = left.split_first() {
        if left.starts_with(name) {
            return Some(&left[name.len()..]);
        }
        left = rest;
    }
    None
}

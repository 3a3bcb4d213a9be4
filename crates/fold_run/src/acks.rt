//! How the lines below the separator are read: at most 65,536 acknowledgements, or the first refused line.
ghost use Rattle.std.specs.Prelude.{◌≡◌, ◌≢◌, ◌+◌, ◌^◌, ◌<◌, ◌≤◌, IfOk, IfErr, OnOk, Ok, Err, length};
ghost use Rattle.ccp_base.specs.Outside.{no_memory};
ghost use Rattle.ccp_base.specs.Limits.{most_acks};
ghost use Rattle.ccp_base.specs.declared.parts.Separator.TheVariants.{LineFeed};
ghost use Rattle.ccp_base.specs.Parts.{parts_of};
ghost use Rattle.fold_run.specs.declared.acks.LineFault.{LineFault};
ghost use Rattle.fold_run.specs.declared.acks.LineFault.TheVariants as faults;
ghost use Rattle.fold_run.specs.AckLine.{read_ack_line};
ghost use Rattle.fold_run.specs.Acknowledgements.{with_line, acks_of_lines};
ghost use Rattle.fold_run.specs.OneValue.{with_ack};

use crate::ack_line::{LineKind, read_line};
use crate::first_line::first_line;
use crate::line_fault::before_memory;
use crate::line_values::LineValues;
use crate::names::Followers;
use crate::single_lines::put_single_lines;
use ccp_base::{Ack, Acks, NoMemory, ack_of, without_return};
use std::alloc::{AllocError, Global};

/// The most acknowledgements of one input.
pub const MOST_ACKS: usize = 65_536;

/// Why lines have no acknowledgements.
#[derive(Clone, Copy, PartialEq, Eq)]
pub enum LineFault {
    /// The line of this number in the whole input is no acknowledgement and isn't blank.
    Line(u64),
    /// There is an acknowledgement after the 65,536th.
    TooMany,
    NoMemory(NoMemory),
}

impl From<AllocError> for LineFault {
    ghost from_gives = { λ _ e. e ≡ faults.NoMemory no_memory };

    fn from(error: AllocError) -> LineFault {
        LineFault::NoMemory(NoMemory::from(error))
    }
}

/// The acknowledgements of lines, of which the first has the number `next` in the whole input. Blank lines are ignored,
/// and the answer is the first fault in the order of the lines, with or without memory.
pub fn acknowledgements(alloc: Global, lines: &[u8], next: u64) -> Result<Acks, LineFault>
    requires { next + length lines.now < 2 ^ 64 }
    ensures ok { IfOk result (λ acks. acks_of_lines next (parts_of LineFeed lines.now) ≡ Ok acks) }
    ensures err { IfErr result (λ e. e ≢ faults.NoMemory no_memory → acks_of_lines next (parts_of LineFeed lines.now) ≡ Err e) }
    ensures first { (e : LineFault) → acks_of_lines next (parts_of LineFeed lines.now) ≡ Err e → result ≡ Err e }
    ensures within { IfOk result (λ acks. length acks ≤ most_acks) }
{
    match kept_acks(alloc, lines, next) {
        Ok(acks) => Ok(acks),
        Err(fault) => Err(before_memory(lines, next, fault)),
    }
}

/// The acknowledgements of lines, or the first fault among the lines up to the one that found no memory.
fn kept_acks(alloc: Global, lines: &[u8], next: u64) -> Result<Acks, LineFault>
    requires { next + length lines.now < 2 ^ 64 }
    ensures ok { IfOk result (λ acks. acks_of_lines next (parts_of LineFeed lines.now) ≡ Ok acks) }
    ensures err { IfErr result (λ e. e ≢ faults.NoMemory no_memory → acks_of_lines next (parts_of LineFeed lines.now) ≡ Err e) }
    ensures within { IfOk result (λ acks. length acks ≤ most_acks) }
{
    let mut acks = Acks::from_vec(Vec::with_capacity(alloc, room_for(lines))?);
    let mut followers = Followers::new();
    let mut number = next;
    let mut rest = lines;
    while !rest.is_empty() {
        let (line, after) = first_line(rest);
        put_line(&mut acks, &mut followers, number, without_return(line))?;
        let left = put_single_lines(&mut acks, followers.alone(), number + 1, after)?;
        rest = left.text;
        number = left.number;
    }
    Ok(acks)
}

/// For how many acknowledgements room is reserved: one for each line, as if all lines were as long as the first.
fn room_for(lines: &[u8]) -> usize
    ensures { result ≤ most_acks }
{
    if lines.is_empty() {
        return 0;
    }
    let (line, _) = first_line(lines);
    (lines.len() / (line.len() + 1) + 1).min(MOST_ACKS)
}

/// Appends the acknowledgement of the line of this number, if it has one. A CR at the line's end is ignored.
fn put_line(
    acks: &mut Acks,
    followers: &mut Followers,
    number: u64,
    line: &[u8],
) -> Result<(), LineFault>
    requires { length acks.old ≤ most_acks }
    ensures ok { OnOk result (with_line number acks.old (read_ack_line line.now) ≡ Ok acks.new) }
    ensures err { IfErr result (λ e. e ≢ faults.NoMemory no_memory → with_line number acks.old (read_ack_line line.now) ≡ Err e) }
    ensures within { length acks.new ≤ most_acks }
{
    let mut values = LineValues::none();
    match read_line(&mut values, followers, line) {
        LineKind::Nothing => Ok(()),
        LineKind::Refused => Err(LineFault::Line(number)),
        LineKind::Given => put_ack(acks, ack_of(&values.numbers)),
    }
}

/// Appends an acknowledgement, if an input may have one more.
#[inline(always)]
pub fn put_ack(acks: &mut Acks, ack: Ack) -> Result<(), LineFault>
    requires { length acks.old ≤ most_acks }
    ensures ok { OnOk result (with_ack acks.old ack ≡ Ok acks.new) }
    ensures err { IfErr result (λ e. e ≢ faults.NoMemory no_memory → with_ack acks.old ack ≡ Err e) }
    ensures within { length acks.new ≤ most_acks }
{
    if acks.len() >= MOST_ACKS {
        return Err(LineFault::TooMany);
    }
    acks.push(ack)?;
    Ok(())
}

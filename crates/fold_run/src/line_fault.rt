//! The first fault of lines, found without memory: their acknowledgements are only counted.
ghost use Rattle.std.specs.Prelude.{◌≡◌, ◌≢◌, ◌+◌, ◌^◌, ◌<◌, ◌≤◌, IfOk, Ok, Err, length};
ghost use Rattle.ccp_base.specs.Outside.{no_memory};
ghost use Rattle.ccp_base.specs.Limits.{most_acks};
ghost use Rattle.ccp_base.specs.declared.parts.Separator.TheVariants.{LineFeed};
ghost use Rattle.ccp_base.specs.Parts.{parts_of};
ghost use Rattle.fold_run.specs.declared.acks.LineFault.{LineFault};
ghost use Rattle.fold_run.specs.declared.acks.LineFault.TheVariants as faults;
ghost use Rattle.fold_run.specs.AckLine.{read_ack_line};
ghost use Rattle.fold_run.specs.Acknowledgements.{acks_of_lines};
ghost use Rattle.fold_run.specs.LineCount.{counted_line, counted_lines, fault_counted};

use crate::ack_line::{LineKind, read_line};
use crate::acks::{LineFault, MOST_ACKS};
use crate::first_line::first_line;
use crate::line_values::LineValues;
use crate::names::Followers;
use ccp_base::{NoMemory, without_return};

/// The fault of a reading, or the fault of a line that the reading didn't reach because memory ran out before it.
pub fn before_memory(lines: &[u8], next: u64, fault: LineFault) -> LineFault
    requires room { next + length lines.now < 2 ^ 64 }
    requires cause { fault ≢ faults.NoMemory no_memory → acks_of_lines next (parts_of LineFeed lines.now) ≡ Err fault }
    ensures err { result ≢ faults.NoMemory no_memory → acks_of_lines next (parts_of LineFeed lines.now) ≡ Err result }
    ensures first { (e : LineFault) → acks_of_lines next (parts_of LineFeed lines.now) ≡ Err e → result ≡ e }
{
    match fault {
        LineFault::NoMemory(error) => first_fault(lines, next, error),
        _ => fault,
    }
}

/// The first fault of lines, and this error if there is none.
fn first_fault(lines: &[u8], next: u64, error: NoMemory) -> LineFault
    requires { next + length lines.now < 2 ^ 64 }
    ensures { result ≡ fault_counted (counted_lines next (Ok 0) (parts_of LineFeed lines.now)) }
{
    let mut followers = Followers::new();
    let mut count = 0;
    let mut number = next;
    let mut rest = lines;
    while !rest.is_empty() {
        let (line, after) = first_line(rest);
        match count_line(count, &mut followers, number, without_return(line)) {
            Ok(more) => count = more,
            Err(fault) => return fault,
        }
        rest = after;
        number += 1;
    }
    LineFault::NoMemory(error)
}

/// How many acknowledgements there are with that of the line of this number, if it has one.
fn count_line(
    count: usize,
    followers: &mut Followers,
    number: u64,
    line: &[u8],
) -> Result<usize, LineFault>
    requires { count ≤ most_acks }
    ensures count { result ≡ counted_line number count (read_ack_line line.now) }
    ensures within { IfOk result (λ more. more ≤ most_acks) }
{
    let mut values = LineValues::none();
    match read_line(&mut values, followers, line) {
        LineKind::Nothing => Ok(count),
        LineKind::Refused => Err(LineFault::Line(number)),
        LineKind::Given => {
            if count >= MOST_ACKS {
                Err(LineFault::TooMany)
            } else {
                Ok(count + 1)
            }
        }
    }
}

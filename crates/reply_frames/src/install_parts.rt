//! The parts of an Install's body, read from the front of bytes.

ghost use Rattle.std.specs.Prelude.{◌≡◌, ◌<◌, ℕ, IfOk};
ghost use Rattle.ccp_base.specs.Acknowledgement.{bool_number};
ghost use Rattle.reply_frames.specs.declared.fault.BadKind.TheVariants.{Flag};
ghost use Rattle.reply_frames.specs.Parts.{Gives, passed, byte_at, repeated_at};
ghost use Rattle.reply_frames.specs.Frames.{start_at, event_at, register_number_at, IsSmall};
ghost use Rattle.reply_frames.specs.Frames.{register_at, instruction_at, install_at};

use crate::fault::{BadKind, Stop};
use crate::outline::{Counts, Instruction, Register};
use crate::parts::{byte, limited_number, number16, number32, number64};

/// The greatest number of an operation.
pub const MOST_OPERATION: u8 = 14;

/// A Bool in one byte, and the bytes after it.
fn flag(bytes: &[u8]) -> Result<(bool, &[u8]), Stop>
    ensures { Gives (λ x. (bool_number x.0, x.1.now)) result (byte_at Flag 0 1 bytes.now) }
{
    let (number, rest) = byte(bytes, BadKind::Flag, 0, 1)?;
    Ok((number == 1, rest))
}

/// Whether a declared register is volatile and the value that it starts with, and the bytes after them.
#[tactic(auto, unfolding(crate::specs::Frames::start_at))]
pub fn start(bytes: &[u8]) -> Result<((bool, u64), &[u8]), Stop>
    ensures { Gives (λ x. (record { volatile = bool_number x.0.0; value = x.0.1 }, x.1.now))
        result (start_at bytes.now) }
{
    let (volatile, rest) = flag(bytes)?;
    let (value, rest) = number64(rest)?;
    Ok(((volatile, value), rest))
}

/// How many instructions the condition and the body of an event have, and the bytes after it.
#[tactic(auto, unfolding(crate::specs::Frames::event_at))]
pub fn event(bytes: &[u8]) -> Result<((u16, u16), &[u8]), Stop>
    ensures { Gives (λ x. (record { condition = x.0.0; block = x.0.1 }, x.1.now)) result (event_at bytes.now) }
{
    let (condition, rest) = number16(bytes)?;
    let (block, rest) = number16(rest)?;
    Ok(((condition, block), rest))
}

/// A register's number, or an immediate value, and the bytes after it.
#[tactic(auto, unfolding(crate::specs::Frames::register_number_at))]
fn register_number(bytes: &[u8], class: u8) -> Result<(u64, &[u8]), Stop>
    ensures read { Gives (λ x. (x.0, x.1.now)) result (register_number_at class bytes.now) }
    ensures within { IfOk result (λ x. 0 < class → x.0 < 256) }
{
    match class {
        0 => number64(bytes),
        4 => limited_number(bytes, BadKind::Index, 8, 5),
        _ => limited_number(bytes, BadKind::Index, 8, 255),
    }
}

/// A register, and the bytes after it.
#[tactic(auto, unfolding(crate::specs::Frames::register_at))]
fn register(bytes: &[u8]) -> Result<(Register, &[u8]), Stop>
    ensures read { Gives (λ x. (x.0, x.1.now)) result (register_at bytes.now) }
    ensures within { IfOk result (λ x. IsSmall x.0) }
{
    let (class, rest) = byte(bytes, BadKind::Class, 0, 6)?;
    let (number, rest) = register_number(rest, class)?;
    Ok((Register { class, number }, rest))
}

/// An instruction, and the bytes after it.
#[tactic(auto, unfolding(crate::specs::Frames::instruction_at))]
pub fn instruction(bytes: &[u8]) -> Result<(Instruction, &[u8]), Stop>
    ensures read { Gives (λ x. (x.0, x.1.now)) result (instruction_at bytes.now) }
    ensures within { IfOk result (λ x. IsSmall x.0.to × IsSmall x.0.left × IsSmall x.0.right) }
{
    let (op, rest) = byte(bytes, BadKind::Op, 0, u64::from(MOST_OPERATION))?;
    let (to, rest) = register(rest)?;
    let (left, rest) = register(rest)?;
    let (right, rest) = register(rest)?;
    Ok((
        Instruction {
            op,
            to,
            left,
            right,
        },
        rest,
    ))
}

/// The bytes after `count` declared registers.
fn starts(bytes: &[u8], count: u8) -> Result<&[u8], Stop>
    ensures { Gives (λ rest. rest.now) result (passed (repeated_at start_at count bytes.now)) }
{
    let mut rest = bytes;
    for _ in 0..count {
        let (_, after) = start(rest)?;
        rest = after;
    }
    Ok(rest)
}

/// The bytes after `count` events.
fn events(bytes: &[u8], count: u16) -> Result<&[u8], Stop>
    ensures { Gives (λ rest. rest.now) result (passed (repeated_at event_at count bytes.now)) }
{
    let mut rest = bytes;
    for _ in 0..count {
        let (_, after) = event(rest)?;
        rest = after;
    }
    Ok(rest)
}

/// The bytes after `count` instructions.
fn instructions(bytes: &[u8], count: u16) -> Result<&[u8], Stop>
    ensures { Gives (λ rest. rest.now) result (passed (repeated_at instruction_at count bytes.now)) }
{
    let mut rest = bytes;
    for _ in 0..count {
        let (_, after) = instruction(rest)?;
        rest = after;
    }
    Ok(rest)
}

/// The bytes after an Install's body, whose code is skipped.
#[tactic(auto, unfolding(crate::specs::Frames::install_at))]
pub(crate) fn install(bytes: &[u8], counts: Counts) -> Result<&[u8], Stop>
    ensures { Gives (λ rest. rest.now) result (passed (install_at counts bytes.now)) }
{
    let (_, rest) = number32(bytes)?;
    let rest = starts(rest, counts.n1)?;
    let rest = starts(rest, counts.n2)?;
    let rest = events(rest, counts.n3)?;
    instructions(rest, counts.n4)
}

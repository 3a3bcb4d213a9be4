//! The values of an Update or a Change, read from the front of bytes.

ghost use Rattle.std.specs.Prelude.{◌≡◌, ◌≤◌, OnErr};
ghost use Rattle.ccp_base.specs.Limits.{most_pairs};
ghost use Rattle.reply_frames.specs.Parts.{Gives};
ghost use Rattle.reply_frames.specs.Frames.{Update, Change, target_at, value_at, values_at, update_at, change_at};

use crate::fault::{BadKind, Stop};
use crate::parts::{byte, number32, number64};
use ccp_base::{FieldReg, Fields};

/// What a value is written to, and the bytes after it.
#[tactic(auto, unfolding(crate::specs::Frames::target_at))]
fn target(bytes: &[u8]) -> Result<(FieldReg, &[u8]), Stop>
    ensures { Gives (λ x. (x.0, x.1.now)) result (target_at bytes.now) }
{
    let (class, rest) = byte(bytes, BadKind::Class, 3, 4)?;
    if class == 3 {
        let (number, rest) = byte(rest, BadKind::Index, 0, 63)?;
        Ok((FieldReg::Control(number), rest))
    } else {
        let (number, rest) = byte(rest, BadKind::Index, 4, 5)?;
        let reg = if number == 4 {
            FieldReg::Cwnd
        } else {
            FieldReg::Rate
        };
        Ok((reg, rest))
    }
}

/// A value with what it is written to, and the bytes after it.
#[tactic(auto, unfolding(crate::specs::Frames::value_at))]
fn value(bytes: &[u8]) -> Result<((FieldReg, u64), &[u8]), Stop>
    ensures { Gives (λ x. (x.0, x.1.now)) result (value_at bytes.now) }
{
    let (reg, rest) = target(bytes)?;
    let (value, rest) = number64(rest)?;
    Ok(((reg, value), rest))
}

/// Reads `count` values, at most 66, into `fields`, replacing what it has, and gives the bytes after them. Unless the
/// answer is Ok, `fields` is as before.
fn values<'a>(bytes: &'a [u8], count: u8, fields: &mut Fields) -> Result<&'a [u8], Stop>
    requires { count ≤ most_pairs }
    ensures read { Gives (λ rest. (fields.new, rest.now)) result (values_at count bytes.now) }
    ensures unchanged { OnErr result (fields.new ≡ fields.old) }
{
    let mut read = Fields::new();
    let mut rest = bytes;
    for _ in 0..count {
        let ((reg, number), after) = value(rest)?;
        read.push(reg, number);
        rest = after;
    }
    *fields = read;
    Ok(rest)
}

/// Reads the values of an Update's body into `fields`, and gives the bytes after it. Unless the answer is Ok, `fields`
/// is as before.
#[tactic(auto, unfolding(crate::specs::Frames::update_at))]
pub fn update<'a>(bytes: &'a [u8], count: u8, fields: &mut Fields) -> Result<&'a [u8], Stop>
    requires { count ≤ most_pairs }
    ensures read { Gives (λ rest. (Update fields.new, rest.now)) result (update_at count bytes.now) }
    ensures unchanged { OnErr result (fields.new ≡ fields.old) }
{
    let rest = values(bytes, count, fields)?;
    Ok(rest)
}

/// Reads the program and the values of a Change's body, the values into `fields`, and gives the program and the bytes
/// after it. Unless the answer is Ok, `fields` is as before.
#[tactic(auto, unfolding(crate::specs::Frames::change_at))]
pub fn change<'a>(bytes: &'a [u8], count: u8, fields: &mut Fields) -> Result<(u32, &'a [u8]), Stop>
    requires { count ≤ most_pairs }
    ensures read { Gives (λ x. (Change x.0 fields.new, x.1.now)) result (change_at count bytes.now) }
    ensures unchanged { OnErr result (fields.new ≡ fields.old) }
{
    let (program, rest) = number32(bytes)?;
    let rest = values(rest, count, fields)?;
    Ok((program, rest))
}

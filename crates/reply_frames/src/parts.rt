//! Bytes and numbers, read from the front of bytes. Each reader stops if the bytes end within the part, or at the first
//! byte with which no part continues.

ghost use Rattle.std.specs.Prelude.{◌≡◌, ℕ, ◌≤◌, length, IfOk};
ghost use Rattle.std.specs.Int.{w16, w32, w64};
ghost use Rattle.reply_frames.specs.Parts.{Gives, byte_at, number_at, limited_at, exactly_at};

use crate::fault::{BadKind, Stop};

/// A byte from `least` to `most`, and the bytes after it. Another byte is a bad one of `field`.
pub(crate) fn byte(bytes: &[u8], field: BadKind, least: u8, most: u64) -> Result<(u8, &[u8]), Stop>
    ensures read { Gives (λ x. (x.0, x.1.now)) result (byte_at field least most bytes.now) }
    ensures within { IfOk result (λ x. x.0 ≤ most) }
{
    match bytes {
        [] => Err(Stop::Cut),
        [first, rest @ ..] => {
            if least <= *first && u64::from(*first) <= most {
                Ok((*first, rest))
            } else {
                Err(Stop::Bad(field, bytes.len()))
            }
        }
    }
}

/// A number of two bytes, and the bytes after it.
pub(crate) fn number16(bytes: &[u8]) -> Result<(u16, &[u8]), Stop>
    ensures { Gives (λ x. (x.0, x.1.now)) result (number_at w16 bytes.now) }
{
    if bytes.len() < 2 {
        return Err(Stop::Cut);
    }
    let (front, rest) = bytes.split_at(2);
    Ok((u16::from_le_bytes([front[0], front[1]]), rest))
}

/// A number of four bytes, and the bytes after it.
pub fn number32(bytes: &[u8]) -> Result<(u32, &[u8]), Stop>
    ensures { Gives (λ x. (x.0, x.1.now)) result (number_at w32 bytes.now) }
{
    if bytes.len() < 4 {
        return Err(Stop::Cut);
    }
    let (front, rest) = bytes.split_at(4);
    let number = u32::from_le_bytes([front[0], front[1], front[2], front[3]]);
    Ok((number, rest))
}

/// A number of eight bytes, and the bytes after it.
pub(crate) fn number64(bytes: &[u8]) -> Result<(u64, &[u8]), Stop>
    ensures { Gives (λ x. (x.0, x.1.now)) result (number_at w64 bytes.now) }
{
    if bytes.len() < 8 {
        return Err(Stop::Cut);
    }
    let (front, rest) = bytes.split_at(8);
    let number = u64::from_le_bytes([
        front[0], front[1], front[2], front[3], front[4], front[5], front[6], front[7],
    ]);
    Ok((number, rest))
}

/// A number of `width` bytes that is at most `most`, and the bytes after it. A byte is a bad one of `field` if every
/// number that continues so is above `most`.
#[tactic(auto, unfolding(crate::specs::Parts::limited_at))]
pub(crate) fn limited_number(
    bytes: &[u8],
    field: BadKind,
    width: u32,
    most: u64,
) -> Result<(u64, &[u8]), Stop>
    ensures read { Gives (λ x. (x.0, x.1.now)) result (limited_at field width most bytes.now) }
    ensures within { IfOk result (λ x. x.0 ≤ most) }
{
    if width == 0 {
        return Ok((0, bytes));
    }
    let (low, rest) = byte(bytes, field, 0, most)?;
    let low = u64::from(low);
    let (high, rest) = limited_number(rest, field, width - 1, (most - low) / 256)?;
    Ok((low + 256 * high, rest))
}

/// Only this number, in `width` bytes, and the bytes after it. Another byte is a bad one of `field`.
#[tactic(auto, unfolding(crate::specs::Parts::exactly_at))]
pub(crate) fn exact_number(
    bytes: &[u8],
    field: BadKind,
    width: u32,
    number: u32,
) -> Result<(u64, &[u8]), Stop>
    ensures read { Gives (λ x. (x.0, x.1.now)) result (exactly_at field width number bytes.now) }
    ensures within { IfOk result (λ x. x.0 ≤ number) }
{
    if width == 0 {
        return Ok((0, bytes));
    }
    let digit = (number % 256) as u8;
    let (low, rest) = byte(bytes, field, digit, u64::from(digit))?;
    let (high, rest) = exact_number(rest, field, width - 1, number / 256)?;
    Ok((u64::from(low) + 256 * high, rest))
}

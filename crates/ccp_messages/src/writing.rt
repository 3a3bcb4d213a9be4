//! Numbers, and lists of them, put at a place of bytes. Each call gives the place after what it put.

ghost use Rattle.std.specs.Prelude.{◌≡◌, ◌+◌, ◌*◌, ◌≤◌, [], ◌∷◌, length};
ghost use Rattle.std.specs.List.{AllByRecursion};
ghost use Rattle.std.specs.Int.{w16, w32, w64, to_le_bytes};
ghost use Rattle.ccp_base.specs.Acknowledgement.{bool_number};
ghost use Rattle.reply_frames.specs.FrameBytes.{count_width, count_bytes, numbers_bytes, IsNumber};
ghost use Rattle.reply_frames.specs.Writing.{Wrote};
ghost use Rattle.ccp_messages.specs.Messages.{IsShortCount};

use reply_frames::Version;
use reply_frames::encode::put;

/// A Bool as a byte: 1 if it is true, else 0.
pub fn flag(truth: bool) -> u8
    ensures { result ≡ bool_number truth }
{
    if truth { 1 } else { 0 }
}

/// Puts a byte.
pub fn put8(out: &mut [u8], at: usize, byte: u8) -> usize
    requires { at + 1 ≤ length out.old }
    ensures { Wrote at (byte ∷ []) out.old out.new result }
{
    put(out, at, &[byte]);
    at + 1
}

/// Puts a number of two bytes.
pub fn put16(out: &mut [u8], at: usize, number: u16) -> usize
    requires { at + 2 ≤ length out.old }
    ensures { Wrote at (to_le_bytes w16 number) out.old out.new result }
{
    put(out, at, &number.to_le_bytes());
    at + 2
}

/// Puts a number of four bytes.
pub fn put32(out: &mut [u8], at: usize, number: u32) -> usize
    requires { at + 4 ≤ length out.old }
    ensures { Wrote at (to_le_bytes w32 number) out.old out.new result }
{
    put(out, at, &number.to_le_bytes());
    at + 4
}

/// Puts a number of eight bytes.
pub fn put64(out: &mut [u8], at: usize, number: u64) -> usize
    requires { at + 8 ≤ length out.old }
    ensures wrote { Wrote at (to_le_bytes w64 number) out.old out.new result }
    ensures typed { IsNumber number }
{
    put(out, at, &number.to_le_bytes());
    at + 8
}

/// Puts a count of acknowledgements, which is wider in version 2.
pub fn put_count(out: &mut [u8], at: usize, version: Version, count: u64) -> usize
    requires room { at + count_width version ≤ length out.old }
    requires short { IsShortCount version count }
    ensures wrote { Wrote at (count_bytes version count) out.old out.new result }
    ensures end { result ≡ at + count_width version }
{
    match version {
        Version::One => put32(out, at, count as u32),
        Version::Two => put64(out, at, count),
    }
}

/// Puts numbers of eight bytes, one after the other.
pub fn put_numbers(out: &mut [u8], at: usize, numbers: &[u64]) -> usize
    requires { at + 8 * length numbers.now ≤ length out.old }
    ensures wrote { Wrote at (numbers_bytes numbers.now) out.old out.new result }
    ensures end { result ≡ at + 8 * length numbers.now }
    ensures typed { AllByRecursion IsNumber numbers.now }
{
    let mut end = at;
    for number in numbers {
        end = put64(out, end, *number);
    }
    end
}

//! Numbers in texts.
ghost use Rattle.std.specs.Prelude.{◌≡◌, ◌++◌, OnOk, decimal};

use ccp_base::{Bytes, NoMemory};
use itoa::write_digits;

/// The most digits of a number of 64 bits.
const DIGITS: usize = 20;

/// Appends a number in decimal digits. It makes no text of its own, as `format!` does.
pub fn put_number(text: &mut Bytes, number: u64) -> Result<(), NoMemory>
    ensures { OnOk result (text.new ≡ text.old ++ decimal number) }
{
    // About four in ten of the numbers in the lines of tickets have one digit.
    if number < 10 {
        text.push(b'0' + number as u8)?;
        return Ok(());
    }
    put_digits(text, number)
}

// A function of its own, so that one digit takes no buffer.
#[inline(never)]
fn put_digits(text: &mut Bytes, number: u64) -> Result<(), NoMemory>
    ensures { OnOk result (text.new ≡ text.old ++ decimal number) }
{
    let mut digits = [0; DIGITS];
    let start = write_digits(number, &mut digits, DIGITS);
    text.extend(&digits[start..])?;
    Ok(())
}

/// Appends a label and, after it, a number in decimal digits.
pub fn put_labelled(text: &mut Bytes, label: &[u8], number: u64) -> Result<(), NoMemory>
    ensures { OnOk result (text.new ≡ text.old ++ (label.now ++ decimal number)) }
{
    text.extend(label)?;
    put_number(text, number)
}

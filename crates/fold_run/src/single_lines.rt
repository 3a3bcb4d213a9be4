//! Lines that give one value each, and the same one, as most lines of many inputs do. They are read in one pass, without a
//! search for their ends and without a table of their values.
ghost use Rattle.std.specs.Prelude.{◌≡◌, ◌≢◌, ◌≤◌, ◌<◌, ◌+◌, ◌^◌, IfOk, IfErr, IfSome, Ok, Err, length};
ghost use Rattle.ccp_base.specs.Outside.{no_memory};
ghost use Rattle.ccp_base.specs.Limits.{most_acks, primitive_count};
ghost use Rattle.ccp_base.specs.Parts.{parts_of};
ghost use Rattle.ccp_base.specs.declared.parts.Separator.TheVariants.{LineFeed};
ghost use Rattle.fold_run.specs.declared.acks.LineFault.TheVariants as faults;
ghost use Rattle.fold_run.specs.Acknowledgements.{with_lines};
ghost use Rattle.fold_run.specs.OneValue.{GivesOne, ack_with};

use crate::acks::{LineFault, put_ack};
use crate::line_number::read_line_number;
use crate::line_values::VALUES;
use crate::names::after_known;
use ccp_base::{Ack, Acks, ack_of, is_flag};

/// A name, an equals sign and a number of few digits are shorter than this. So a text of so many bytes needs one test of
/// its length, and not one for each byte of its first line.
const LONG: usize = 32;

/// The lines that are left of a text.
#[derive(Clone, Copy)]
pub struct LinesLeft<'a> {
    pub text: &'a [u8],
    /// The number of their first line in the whole input.
    pub number: u64,
}

/// The value that a line gives alone.
#[derive(Clone, Copy)]
struct SingleValue<'a> {
    value: u64,
    /// The text that follows the line.
    after: &'a [u8],
}

/// Takes the lines by an arm for the number of each name. With a name that the compiler knows, the loop over the lines has
/// no jump for it, and writes the acknowledgement's words where they stay.
macro_rules! put_lines_named {
    ($acks:ident, $name:ident, $number:ident, $text:ident, $($known:literal)*) => {
        match $name {
            $(Some($known) => put_lines_of::<$known>($acks, $number, $text),)*
            _ => Ok(LinesLeft { text: $text, number: $number }),
        }
    };
}

/// Appends the acknowledgements of the lines at the front of a text, as long as each gives the primitive of the number
/// `name` a value, no other one, and is written as most such lines are. The first line has the number `number`.
#[inline(always)]
pub fn put_single_lines<'a>(
    acks: &mut Acks,
    name: Option<usize>,
    number: u64,
    text: &'a [u8],
) -> Result<LinesLeft<'a>, LineFault>
    requires room { number + length text.now < 2 ^ 64 }
    requires few { length acks.old ≤ most_acks }
    ensures ok { IfOk result (λ left. with_lines left.number (Ok acks.new) (parts_of LineFeed left.text.now)
        ≡ with_lines number (Ok acks.old) (parts_of LineFeed text.now)) }
    ensures err { IfErr result (λ e. e ≢ faults.NoMemory no_memory → with_lines number (Ok acks.old) (parts_of LineFeed text.now) ≡ Err e) }
    ensures within { length acks.new ≤ most_acks }
    ensures room { IfOk result (λ left. left.number + length left.text.now ≤ number + length text.now) }
    ensures shorter { IfOk result (λ left. length left.text.now ≤ length text.now) }
{
    put_lines_named!(acks, name, number, text, 0 1 2 3 4 5 6 7 8 9 10 11 12 13 14 15 16 17 18 19 20 21 22 23)
}

/// As `put_single_lines`, for the name of the primitive with the number `NAME`.
fn put_lines_of<'a, const NAME: usize>(
    acks: &mut Acks,
    number: u64,
    text: &'a [u8],
) -> Result<LinesLeft<'a>, LineFault>
    requires room { number + length text.now < 2 ^ 64 }
    requires few { length acks.old ≤ most_acks }
    ensures ok { IfOk result (λ left. with_lines left.number (Ok acks.new) (parts_of LineFeed left.text.now)
        ≡ with_lines number (Ok acks.old) (parts_of LineFeed text.now)) }
    ensures err { IfErr result (λ e. e ≢ faults.NoMemory no_memory → with_lines number (Ok acks.old) (parts_of LineFeed text.now) ≡ Err e) }
    ensures within { length acks.new ≤ most_acks }
    ensures room { IfOk result (λ left. left.number + length left.text.now ≤ number + length text.now) }
    ensures shorter { IfOk result (λ left. length left.text.now ≤ length text.now) }
{
    let mut next = number;
    let mut left = text;
    while let Some(single) = single_value(NAME, left) {
        match put_ack(acks, ack_with(NAME, single.value)) {
            Ok(()) => {}
            Err(fault) => return Err(fault),
        }
        left = single.after;
        next += 1;
    }
    Ok(LinesLeft {
        text: left,
        number: next,
    })
}

/// The value that the first line of a text gives the primitive with this number alone, if the primitive isn't a Bool and
/// the line is written as most such lines are: with a number of few digits, and with a LF. None means nothing about the
/// line.
#[inline(always)]
fn single_value(number: usize, text: &[u8]) -> Option<SingleValue<'_>>
    ensures gives { IfSome result (λ single. GivesOne text.now number single.value single.after.now) }
    ensures below { IfSome result (λ single. number < primitive_count) }
{
    if text.len() < LONG {
        return None;
    }
    let Some(numeral) = after_known(text, number) else {
        return None;
    };
    if is_flag(number as u32) {
        return None;
    }
    let Some((value, after)) = read_line_number(numeral) else {
        return None;
    };
    Some(SingleValue { value, after })
}

/// The acknowledgement with this value for the primitive of this number, and 0 for the others.
#[inline(always)]
fn ack_with(number: usize, value: u64) -> Ack
    requires { number < primitive_count }
    ensures { result ≡ ack_with number value }
{
    let mut numbers = [0; VALUES];
    numbers[number] = value;
    ack_of(&numbers)
}

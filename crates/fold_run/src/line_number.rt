//! The number at the front of a text, up to a blank or the end, if it is below 2^64.
ghost use Rattle.std.specs.Prelude.{◌≡◌, ◌<◌, IfSome, IfNone, Some, None, true, ◌^◌};
ghost use Rattle.ccp_base.specs.declared.parts.Separator.TheVariants.{Blank, LineFeed};
ghost use Rattle.ccp_base.specs.Numerals.{digit_after, value_after, numeral_of, is_digit};
ghost use Rattle.fold_run.specs.FirstPart.{first_of, after_separator};

use ccp_base::Separator;

/// Numbers below this one take another digit without a test of its size. It could be up to 2^64 / 10, but a test for a
/// number below 2^31 is one instruction.
const SHORT: u64 = 2_147_483_647;

/// How many digits are read without a test of the number's size.
const FEW_DIGITS: u32 = 9;

/// A text of so many bytes has room for these digits and a byte after them: no digit needs a test for the text's end.
const LONG: usize = 10;

/// The number at the front of a text, up to a blank or the text's end, and what follows that blank; None exactly if
/// there is no numeral or its value is past 2^64-1.
pub fn read_number(text: &[u8]) -> Option<(u64, &[u8])>
    ensures number { IfSome result (λ read. numeral_of (first_of Blank text.now) ≡ Some read.0) }
    ensures after { IfSome result (λ read. read.1.now ≡ after_separator Blank text.now) }
    ensures wrong { IfNone result (numeral_of (first_of Blank text.now) ≡ None) }
{
    match text.first() {
        Some(byte) if byte.is_ascii_digit() => {
            if text.len() < LONG {
                read_digits(0, text)
            } else {
                read_first_digits(text)
            }
        }
        _ => None,
    }
}

// The loop has a constant as its end, so the compiler writes its turns one after another and tests no number's size.
/// The number of the digits at the front of a text.
#[inline(always)]
fn read_first_digits(text: &[u8]) -> Option<(u64, &[u8])>
    ensures number { IfSome result (λ read. value_after (Some 0) (first_of Blank text.now) ≡ Some read.0) }
    ensures after { IfSome result (λ read. read.1.now ≡ after_separator Blank text.now) }
    ensures wrong { IfNone result (value_after (Some 0) (first_of Blank text.now) ≡ None) }
{
    let mut number: u64 = 0;
    let mut left = text;
    for _ in 0..FEW_DIGITS {
        let Some((byte, rest)) = left.split_first() else {
            break;
        };
        if !byte.is_ascii_digit() {
            return if Separator::Blank.is(*byte) {
                Some((number, rest))
            } else {
                None
            };
        }
        if number >= SHORT {
            break;
        }
        number = number * 10 + u64::from(byte - b'0');
        left = rest;
    }
    read_digits(number, left)
}

/// A number with the digits at the front of a text.
fn read_digits(before: u64, text: &[u8]) -> Option<(u64, &[u8])>
    requires { before < 2 ^ 64 }
    ensures number { IfSome result (λ read. value_after (Some before) (first_of Blank text.now) ≡ Some read.0) }
    ensures after { IfSome result (λ read. read.1.now ≡ after_separator Blank text.now) }
    ensures wrong { IfNone result (value_after (Some before) (first_of Blank text.now) ≡ None) }
{
    let mut number = before;
    let mut left = text;
    while let Some((byte, rest)) = left.split_first() {
        if !byte.is_ascii_digit() {
            return if Separator::Blank.is(*byte) {
                Some((number, rest))
            } else {
                None
            };
        }
        if number >= SHORT {
            return read_more_digits(number, left);
        }
        number = number * 10 + u64::from(byte - b'0');
        left = rest;
    }
    Some((number, left))
}

/// The number that the first line of a text is, and what follows the line, if a LF ends it. None also for some numbers of
/// more than ten digits.
#[inline(always)]
pub fn read_line_number(text: &[u8]) -> Option<(u64, &[u8])>
    ensures number { IfSome result (λ read. numeral_of (first_of LineFeed text.now) ≡ Some read.0) }
    ensures after { IfSome result (λ read. read.1.now ≡ after_separator LineFeed text.now) }
{
    match text.first() {
        Some(byte) if byte.is_ascii_digit() => read_line_digits(text),
        _ => None,
    }
}

// The loop has a constant as its end, so the compiler writes its turns one after another and tests no number's size.
/// The number of the digits that the first line of a text has, if there are few and a LF ends the line.
#[inline(always)]
fn read_line_digits(text: &[u8]) -> Option<(u64, &[u8])>
    ensures number { IfSome result (λ read. value_after (Some 0) (first_of LineFeed text.now) ≡ Some read.0) }
    ensures after { IfSome result (λ read. read.1.now ≡ after_separator LineFeed text.now) }
{
    let mut number: u64 = 0;
    let mut left = text;
    for _ in 0..FEW_DIGITS {
        let Some((byte, rest)) = left.split_first() else {
            return None;
        };
        if !byte.is_ascii_digit() {
            return if Separator::LineFeed.is(*byte) {
                Some((number, rest))
            } else {
                None
            };
        }
        if number >= SHORT {
            return None;
        }
        number = number * 10 + u64::from(byte - b'0');
        left = rest;
    }
    read_later_digits(number, left)
}

/// A number with the digits that the first line of a text has, if there are few and a LF ends the line.
#[inline(always)]
fn read_later_digits(before: u64, text: &[u8]) -> Option<(u64, &[u8])>
    requires { before < 2 ^ 64 }
    ensures number { IfSome result (λ read. value_after (Some before) (first_of LineFeed text.now) ≡ Some read.0) }
    ensures after { IfSome result (λ read. read.1.now ≡ after_separator LineFeed text.now) }
{
    let mut number = before;
    let mut left = text;
    while let Some((byte, rest)) = left.split_first() {
        if !byte.is_ascii_digit() {
            return if Separator::LineFeed.is(*byte) {
                Some((number, rest))
            } else {
                None
            };
        }
        if number >= SHORT {
            return None;
        }
        number = number * 10 + u64::from(byte - b'0');
        left = rest;
    }
    None
}

/// A number of ten digits or more with the digits at the front of a text.
#[inline(never)]
fn read_more_digits(before: u64, text: &[u8]) -> Option<(u64, &[u8])>
    ensures number { IfSome result (λ read. value_after (Some before) (first_of Blank text.now) ≡ Some read.0) }
    ensures after { IfSome result (λ read. read.1.now ≡ after_separator Blank text.now) }
    ensures wrong { IfNone result (value_after (Some before) (first_of Blank text.now) ≡ None) }
{
    let mut number = before;
    let mut left = text;
    while let Some((byte, rest)) = left.split_first() {
        if Separator::Blank.is(*byte) {
            return Some((number, rest));
        }
        if !byte.is_ascii_digit() {
            return None;
        }
        number = with_digit(number, *byte)?;
        left = rest;
    }
    Some((number, left))
}

/// A number with one more decimal digit; None exactly if it is past 2^64-1. Its caller has tested that the byte is a
/// digit, which `ccp_base` tests in the same call.
fn with_digit(number: u64, digit: u8) -> Option<u64>
    requires { is_digit digit ≡ true }
    ensures { result ≡ digit_after number digit }
{
    number.checked_mul(10)?.checked_add(u64::from(digit - b'0'))
}

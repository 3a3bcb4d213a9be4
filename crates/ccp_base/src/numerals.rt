//! The value of a decimal numeral, if it is below 2^64.
ghost use Rattle.std.specs.Prelude.{◌≡◌, Some};
ghost use Rattle.ccp_base.specs.Numerals.{digit_after, value_after, numeral_of};

/// The value of a numeral, which is one or more decimal digits; None exactly if the bytes are something else or
/// the value is past 2^64-1. Leading zeros are allowed.
pub fn numeral(bytes: &[u8]) -> Option<u64>
    ensures { result ≡ numeral_of bytes.now }
{
    if bytes.is_empty() {
        None
    } else {
        value_after(bytes)
    }
}

fn value_after(digits: &[u8]) -> Option<u64>
    ensures { result ≡ value_after (Some 0) digits.now }
{
    let mut number = 0;
    for byte in digits {
        number = with_digit(number, *byte)?;
    }
    Some(number)
}

/// A number with one more decimal digit.
fn with_digit(number: u64, byte: u8) -> Option<u64>
    ensures { result ≡ digit_after number byte }
{
    if !byte.is_ascii_digit() {
        return None;
    }
    number.checked_mul(10)?.checked_add(u64::from(byte - b'0'))
}

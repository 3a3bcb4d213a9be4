//! Whether some ranges have no value that others don't have.
ghost use Rattle.std.specs.Prelude.{◌≡◌, ℕ, IsTrue, length};
ghost use Rattle.value_ranges.specs.Ranges.{IsIn};
ghost use Rattle.range_cases.specs.Cases.{AreIn};
ghost use Rattle.program_bounds.specs.Turns.{IsWithin};

use range_cases::Kept;
use value_ranges::Range;

/// Whether all that is in the first ranges is in the second.
pub fn is_within(small: &Kept, large: &Kept) -> bool
    ensures { IsTrue result → IsWithin small.now large.now }
{
    are_within(&small.fields, &large.fields)
        && are_within(&small.controls, &large.controls)
        && is_part(small.cwnd, large.cwnd)
        && is_part(small.rate, large.rate)
}

/// Whether each range is a part of the other one at its place.
fn are_within(small: &[Range], large: &[Range]) -> bool
    requires { length small.now ≡ length large.now }
    ensures { IsTrue result → (value : ℕ → ℕ) → AreIn small.now value → AreIn large.now value }
{
    for (i, range) in small.iter().enumerate() {
        if !is_part(*range, large[i]) {
            return false;
        }
    }
    true
}

/// Whether a range is a part of another.
fn is_part(small: Range, large: Range) -> bool
    ensures { IsTrue result → (n : ℕ) → IsIn small n → IsIn large n }
{
    large.lo <= small.lo && small.hi <= large.hi
}

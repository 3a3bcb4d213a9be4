//! The moving average of an old value and a new one, of two ranges.
ghost use Rattle.std.specs.Prelude.{◌≡◌, ◌+◌, ◌-◌, ◌*◌, ◌/◌, ◌<◌, ◌≤◌, ℕ, Option, Ok};
ghost use Rattle.ccp_base.specs.Blending.{moving_average};
ghost use Rattle.ccp_base.specs.CheckedNumbers.{fitted};
ghost use Rattle.value_ranges.specs.Ranges.{IsIn, HasValue, Covers, CoversAll};

use crate::operations::fitted_range;
use crate::range::{Range, Reach};

/// The whole weight of an average, in tenths.
const TENTHS: u64 = 10;

/// The averages of old values and new ones, with the old ones' weight in tenths.
pub fn average(weight: u64, old: Range, new: Range) -> Reach
    requires { weight ≤ 10 }
    ensures { CoversAll result (moving_average weight) old new }
{
    let first = if old.lo == 0 { Some(new) } else { None };
    if old.hi == 0 {
        return Reach {
            fault: None,
            values: first,
        };
    }
    let mixed = mixture(weight, old, new);
    Reach {
        fault: mixed.fault,
        values: joined(first, tenth(mixed.values)),
    }
}

/// The sums of the weighted old values above 0 and new ones.
fn mixture(weight: u64, old: Range, new: Range) -> Reach
    requires weight { weight ≤ 10 }
    requires some { 0 < old.hi }
    ensures { (x y : ℕ) → IsIn old x → IsIn new y → 0 < x → Covers result (fitted (weight * x + (10 - weight) * y)) }
{
    let rest = TENTHS - weight;
    fitted_range(
        weighted(weight, old.lo.max(1), rest, new.lo),
        weighted(weight, old.hi, rest, new.hi),
    )
}

/// The exact sum of two weighted values.
fn weighted(weight: u64, old: u64, rest: u64, new: u64) -> u128
    requires { weight + rest ≤ 10 }
    ensures { result ≡ weight * old + rest * new }
{
    u128::from(weight) * u128::from(old) + u128::from(rest) * u128::from(new)
}

/// A tenth of each value.
fn tenth(values: Option<Range>) -> Option<Range>
    ensures { (n : ℕ) → HasValue values n → HasValue result (n / 10) }
{
    match values {
        Some(range) => Range::between(range.lo / TENTHS, range.hi / TENTHS),
        None => None,
    }
}

/// The hull of those that there are.
fn joined(first: Option<Range>, second: Option<Range>) -> Option<Range>
    ensures left { (n : ℕ) → HasValue first n → HasValue result n }
    ensures right { (n : ℕ) → HasValue second n → HasValue result n }
{
    match (first, second) {
        (Some(a), Some(b)) => Some(a.hull(b)),
        (Some(a), None) => Some(a),
        (None, b) => b,
    }
}

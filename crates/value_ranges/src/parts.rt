//! A range of values, its hull with another one and its parts.
ghost use Rattle.std.specs.Prelude.{◌≡◌, ◌↔◌, ◌⊎◌, ℕ, ◌≤◌};
ghost use Rattle.value_ranges.specs.Ranges.{IsIn, HasValue};

use crate::range::Range;

impl Range {
    /// The range of one value.
    pub fn only(value: u64) -> Self
        ensures lo { result.lo ≡ value }
        ensures hi { result.hi ≡ value }
    {
        Range {
            lo: value,
            hi: value,
        }
    }

    /// All values, from 0 to 2^64-1.
    pub fn full() -> Self
        ensures lo { result.lo ≡ 0 }
        ensures hi { result.hi ≡ u64.MAX }
    {
        Range {
            lo: 0,
            hi: u64::MAX,
        }
    }

    /// The values of a Bool.
    pub fn truths() -> Self
        ensures lo { result.lo ≡ 0 }
        ensures hi { result.hi ≡ 1 }
    {
        Range { lo: 0, hi: 1 }
    }

    /// The range between two values; None exactly if the first one is the larger.
    pub fn between(lo: u64, hi: u64) -> Option<Self>
        ensures { (n : ℕ) → HasValue result n ↔ (lo ≤ n × n ≤ hi) }
    {
        if lo <= hi {
            Some(Range { lo, hi })
        } else {
            None
        }
    }

    /// The least range with all values of both.
    pub fn hull(self, other: Range) -> Self
        ensures left { (n : ℕ) → IsIn self n → IsIn result n }
        ensures right { (n : ℕ) → IsIn other n → IsIn result n }
        ensures least { (n : ℕ) → IsIn result n → (self.lo ≤ n ⊎ other.lo ≤ n) × (n ≤ self.hi ⊎ n ≤ other.hi) }
    {
        Range {
            lo: self.lo.min(other.lo),
            hi: self.hi.max(other.hi),
        }
    }

    /// The values that are at most `most`, if there are any.
    pub fn at_most(self, most: u64) -> Option<Self>
        ensures { (n : ℕ) → HasValue result n ↔ (IsIn self n × n ≤ most) }
    {
        Range::between(self.lo, self.hi.min(most))
    }

    /// The values that are at least `least`, if there are any.
    pub fn at_least(self, least: u64) -> Option<Self>
        ensures { (n : ℕ) → HasValue result n ↔ (IsIn self n × least ≤ n) }
    {
        Range::between(self.lo.max(least), self.hi)
    }
}

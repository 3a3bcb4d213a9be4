//! The operations of the language on the values of two ranges.
ghost use Rattle.std.specs.Prelude.{◌≡◌, ◌↔◌, ◌+◌, ◌*◌, ◌/◌, ◌^◌, ◌<◌, ◌≤◌, ℕ, Bool, IsTrue, Some, IsSome, Ok, nat_lt, ◌==◌, ◌&&◌, ◌||◌, max, min};
ghost use Rattle.ccp_base.specs.Acknowledgement.{bool_number};
ghost use Rattle.ccp_base.specs.CheckedNumbers.{sum_of, difference_of, product_of, quotient_of};
ghost use Rattle.ccp_base.specs.Operations.{apply};
ghost use Rattle.ccp_base.specs.Truth.{is_true};
ghost use Rattle.value_ranges.specs.Ranges.{IsIn, Covers, CoversAll};

use crate::range::{Range, Reach};
use ccp_base::{FaultKind, Op2};

/// The operation on the values of two ranges: the range of its results, and the fault that it can have.
pub fn applied(operation: Op2, a: Range, b: Range) -> Reach
    ensures { CoversAll result (apply operation) a b }
{
    match operation {
        Op2::Add => sum(a, b),
        Op2::Sub => difference(a, b),
        Op2::Mul => product(a, b),
        Op2::Div => quotient(a, b),
        Op2::Max => sure(larger(a, b)),
        Op2::Min => sure(smaller(a, b)),
        Op2::Gt => sure(is_below(b, a)),
        Op2::Lt => sure(is_below(a, b)),
        Op2::Eq => sure(is_equal(a, b)),
        Op2::And => sure(both(a, b)),
        Op2::Or => sure(either(a, b)),
    }
}

/// The results of an operation that has no fault.
fn sure(values: Range) -> Reach
    ensures { (n : ℕ) → IsIn values n → Covers result (Ok n) }
{
    Reach {
        fault: None,
        values: Some(values),
    }
}

/// Results between two exact numbers, as far as they are values: `Overflow` is listed exactly if the larger one isn't.
pub(crate) fn fitted_range(lo: u128, hi: u128) -> Reach
    requires { lo ≤ hi }
    ensures values { (n : ℕ) → lo ≤ n → n ≤ hi → n < 2 ^ 64 → Covers result (Ok n) }
    ensures listed { IsSome result.fault ↔ 2 ^ 64 ≤ hi }
    ensures fault { 2 ^ 64 ≤ hi → result.fault ≡ Some FaultKind.Overflow }
{
    let most = u128::from(u64::MAX);
    if hi <= most {
        return Reach {
            fault: None,
            values: Range::between(lo as u64, hi as u64),
        };
    }
    let values = if lo <= most {
        Range::between(lo as u64, u64::MAX)
    } else {
        None
    };
    Reach {
        fault: Some(FaultKind::Overflow),
        values,
    }
}

/// The sums.
fn sum(a: Range, b: Range) -> Reach
    ensures covers { CoversAll result sum_of a b }
    ensures listed { IsSome result.fault ↔ 2 ^ 64 ≤ a.hi + b.hi }
{
    fitted_range(
        u128::from(a.lo) + u128::from(b.lo),
        u128::from(a.hi) + u128::from(b.hi),
    )
}

/// The products.
fn product(a: Range, b: Range) -> Reach
    ensures covers { CoversAll result product_of a b }
    ensures listed { IsSome result.fault ↔ 2 ^ 64 ≤ a.hi * b.hi }
{
    fitted_range(
        u128::from(a.lo) * u128::from(b.lo),
        u128::from(a.hi) * u128::from(b.hi),
    )
}

/// The differences.
fn difference(a: Range, b: Range) -> Reach
    ensures covers { CoversAll result difference_of a b }
    ensures listed { IsSome result.fault ↔ a.lo < b.hi }
{
    let fault = if a.lo < b.hi {
        Some(FaultKind::Underflow)
    } else {
        None
    };
    let values = if a.hi < b.lo {
        None
    } else {
        Range::between(a.lo.saturating_sub(b.hi), a.hi - b.lo)
    };
    Reach { fault, values }
}

/// The quotients.
fn quotient(a: Range, b: Range) -> Reach
    ensures covers { CoversAll result quotient_of a b }
    ensures listed { IsSome result.fault ↔ b.lo ≡ 0 }
{
    let fault = if b.lo == 0 {
        Some(FaultKind::ZeroDivisor)
    } else {
        None
    };
    let values = if b.hi == 0 { None } else { Some(shares(a, b)) };
    Reach { fault, values }
}

/// The quotients by divisors above 0.
#[tactic(auto, using(crate::proofs::QuotientLemmas::quotient_grows))]
fn shares(a: Range, b: Range) -> Range
    requires { 0 < b.hi }
    ensures { (x y : ℕ) → IsIn a x → IsIn b y → 0 < y → IsIn result (x / y) }
{
    Range {
        lo: a.lo / b.hi,
        hi: a.hi / b.lo.max(1),
    }
}

/// The larger ones.
fn larger(a: Range, b: Range) -> Range
    ensures { (x y : ℕ) → IsIn a x → IsIn b y → IsIn result (max x y) }
{
    Range {
        lo: a.lo.max(b.lo),
        hi: a.hi.max(b.hi),
    }
}

/// The smaller ones.
fn smaller(a: Range, b: Range) -> Range
    ensures { (x y : ℕ) → IsIn a x → IsIn b y → IsIn result (min x y) }
{
    Range {
        lo: a.lo.min(b.lo),
        hi: a.hi.min(b.hi),
    }
}

/// A Bool of which it is known whether it can be true and whether it can be false.
fn truth(sure: bool, possible: bool) -> Range
    requires { IsTrue sure → IsTrue possible }
    ensures { (t : Bool) → (IsTrue sure → IsTrue t) → (IsTrue t → IsTrue possible) → IsIn result (bool_number t) }
{
    if sure {
        Range::only(1)
    } else if possible {
        Range::truths()
    } else {
        Range::only(0)
    }
}

/// Whether a value of the first is below one of the second.
fn is_below(a: Range, b: Range) -> Range
    ensures { (x y : ℕ) → IsIn a x → IsIn b y → IsIn result (bool_number (nat_lt x y)) }
{
    truth(a.hi < b.lo, a.lo < b.hi)
}

/// Whether a value of the first is one of the second.
fn is_equal(a: Range, b: Range) -> Range
    ensures { (x y : ℕ) → IsIn a x → IsIn b y → IsIn result (bool_number (x == y)) }
{
    let same = a.lo == b.hi && a.hi == b.lo;
    truth(same, a.lo <= b.hi && b.lo <= a.hi)
}

/// Whether neither is 0.
fn both(a: Range, b: Range) -> Range
    ensures { (x y : ℕ) → IsIn a x → IsIn b y → IsIn result (bool_number (is_true x && is_true y)) }
{
    truth(a.lo != 0 && b.lo != 0, a.hi != 0 && b.hi != 0)
}

/// Whether one of them isn't 0.
fn either(a: Range, b: Range) -> Range
    ensures { (x y : ℕ) → IsIn a x → IsIn b y → IsIn result (bool_number (is_true x || is_true y)) }
{
    truth(a.lo != 0 || b.lo != 0, a.hi != 0 || b.hi != 0)
}

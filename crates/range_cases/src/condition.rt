//! What the truth of a condition makes of a case.
ghost use Rattle.std.specs.Prelude.{◌≡◌, ℕ, ◌+◌, ◌<◌, ◌≤◌, Bool, IsTrue, Ok};
ghost use Rattle.ccp_base.specs.declared.ack.Ack.{Ack};
ghost use Rattle.ccp_base.specs.Acknowledgement.{bool_number};
ghost use Rattle.ccp_base.specs.Operations.{apply};
ghost use Rattle.ccp_base.specs.Truth.{is_true};
ghost use Rattle.value_ranges.specs.Ranges.{HasValue};
ghost use Rattle.portus_core.specs.Programs.{term_of};
ghost use Rattle.portus_core.specs.Value.{read_of};
ghost use Rattle.portus_core.specs.Command.{Going, value_in};
ghost use Rattle.range_cases.specs.Cases.{IsCase, HasCase};
ghost use Rattle.range_cases.specs.Conditions.{SaysOfParts};

use crate::case::Case;
use crate::term::range_of;
use crate::way::Way;
use ccp_base::Op2;
use portus_core::{Expr, Var};
use value_ranges::Range;

/// The part of a case in which the condition has the truth that is wanted, if there is one. It may be larger.
#[tactic(auto, using(portus_core::specs::Programs::terms))]
pub fn refined(condition: &Expr, wanted: bool, case: &Case) -> Option<Case>
    ensures { (ack : Ack) (going : Going) (value : ℕ) → IsCase case.now ack going
        → value_in (term_of condition.now) ack going ≡ Ok value → is_true value ≡ wanted → HasCase result ack going }
{
    match condition {
        Expr::Var(var) => with_truth(*var, wanted, case),
        Expr::Pair(op, _, left, right) => match way_of(*op, wanted) {
            Way::Both => match refined(left, wanted, case) {
                None => None,
                Some(first) => refined(right, wanted, &first),
            },
            Way::Other => compared(*op, left, right, wanted, case),
        },
        Expr::Num(_) | Expr::Truth(_) => Some(*case),
    }
}

/// What it says of both parts that an operation has this truth.
fn way_of(op: Op2, wanted: bool) -> Way
    ensures { SaysOfParts result op wanted }
{
    match op {
        Op2::And => if wanted { Way::Both } else { Way::Other },
        Op2::Or => if wanted { Way::Other } else { Way::Both },
        _ => Way::Other,
    }
}

/// The part of a case in which a variable has this truth.
fn with_truth(var: Var, wanted: bool, case: &Case) -> Option<Case>
    ensures { (ack : Ack) (going : Going) → IsCase case.now ack going
        → is_true (read_of var going.env going.locals ack) ≡ wanted → HasCase result ack going }
{
    let range = case.read(var);
    let part = if wanted {
        range.at_least(1)
    } else {
        range.at_most(0)
    };
    narrowed(case, var, part)
}

/// A case in which a variable's value is also in the range; None if there is no range.
fn narrowed(case: &Case, var: Var, range: Option<Range>) -> Option<Case>
    ensures { (ack : Ack) (going : Going) → IsCase case.now ack going
        → HasValue range (read_of var going.env going.locals ack) → HasCase result ack going }
{
    match range {
        None => None,
        Some(range) => {
            let mut made = *case;
            made.narrow(var, range);
            Some(made)
        }
    }
}

/// The part of a case in which a comparison has this truth.
fn compared(op: Op2, left: &Expr, right: &Expr, wanted: bool, case: &Case) -> Option<Case>
    ensures { (ack : Ack) (going : Going) (a b value : ℕ) → IsCase case.now ack going
        → value_in (term_of left.now) ack going ≡ Ok a → value_in (term_of right.now) ack going ≡ Ok b
        → apply op a b ≡ Ok value → is_true value ≡ wanted → HasCase result ack going }
{
    match op {
        Op2::Lt => if wanted {
            less(left, right, case)
        } else {
            at_most(right, left, case)
        },
        Op2::Gt => if wanted {
            less(right, left, case)
        } else {
            at_most(left, right, case)
        },
        Op2::Eq => if wanted {
            same(left, right, case)
        } else {
            Some(*case)
        },
        _ => Some(*case),
    }
}

/// The part of a case in which two expressions have the same value.
fn same(left: &Expr, right: &Expr, case: &Case) -> Option<Case>
    ensures { (ack : Ack) (going : Going) (a : ℕ) → IsCase case.now ack going
        → value_in (term_of left.now) ack going ≡ Ok a → value_in (term_of right.now) ack going ≡ Ok a
        → HasCase result ack going }
{
    match at_most(left, right, case) {
        None => None,
        Some(first) => at_most(right, left, &first),
    }
}

/// The part of a case in which an expression's value is less than another's.
fn less(left: &Expr, right: &Expr, case: &Case) -> Option<Case>
    ensures { (ack : Ack) (going : Going) (a b : ℕ) → IsCase case.now ack going
        → value_in (term_of left.now) ack going ≡ Ok a → value_in (term_of right.now) ack going ≡ Ok b
        → a < b → HasCase result ack going }
{
    match (range_of(left, case), range_of(right, case)) {
        (Some(a), Some(b)) => {
            if a.lo < b.hi {
                between(left, b.hi - 1, right, a.lo + 1, case)
            } else {
                None
            }
        }
        _ => None,
    }
}

/// The part of a case in which an expression's value is at most another's.
fn at_most(left: &Expr, right: &Expr, case: &Case) -> Option<Case>
    ensures { (ack : Ack) (going : Going) (a b : ℕ) → IsCase case.now ack going
        → value_in (term_of left.now) ack going ≡ Ok a → value_in (term_of right.now) ack going ≡ Ok b
        → a ≤ b → HasCase result ack going }
{
    match (range_of(left, case), range_of(right, case)) {
        (Some(a), Some(b)) => between(left, b.hi, right, a.lo, case),
        _ => None,
    }
}

/// The part of a case in which one expression's value has this upper bound, and another's this lower one.
fn between(low: &Expr, most: u64, high: &Expr, least: u64, case: &Case) -> Option<Case>
    ensures { (ack : Ack) (going : Going) (a b : ℕ) → IsCase case.now ack going
        → value_in (term_of low.now) ack going ≡ Ok a → value_in (term_of high.now) ack going ≡ Ok b
        → a ≤ most → least ≤ b → HasCase result ack going }
{
    match capped(low, most, case) {
        None => None,
        Some(first) => raised(high, least, &first),
    }
}

/// The part of a case in which an expression's value has this upper bound.
#[tactic(auto, using(portus_core::specs::Programs::terms))]
fn capped(expr: &Expr, most: u64, case: &Case) -> Option<Case>
    ensures { (ack : Ack) (going : Going) (value : ℕ) → IsCase case.now ack going
        → value_in (term_of expr.now) ack going ≡ Ok value → value ≤ most → HasCase result ack going }
{
    match expr {
        Expr::Var(var) => narrowed(case, *var, case.read(*var).at_most(most)),
        _ => Some(*case),
    }
}

/// The part of a case in which an expression's value has this lower bound.
#[tactic(auto, using(portus_core::specs::Programs::terms))]
fn raised(expr: &Expr, least: u64, case: &Case) -> Option<Case>
    ensures { (ack : Ack) (going : Going) (value : ℕ) → IsCase case.now ack going
        → value_in (term_of expr.now) ack going ≡ Ok value → least ≤ value → HasCase result ack going }
{
    match expr {
        Expr::Var(var) => narrowed(case, *var, case.read(*var).at_least(least)),
        _ => Some(*case),
    }
}

//! The range of an expression in a case, and the faults that it can have there.
ghost use Rattle.std.specs.Prelude.{◌≡◌, ℕ, IfOk, Some};
ghost use Rattle.ccp_base.specs.declared.ack.Ack.{Ack};
ghost use Rattle.ccp_base.specs.Operations.{apply};
ghost use Rattle.value_ranges.specs.Ranges.{IsIn};
ghost use Rattle.portus_core.specs.Programs.{term_of};
ghost use Rattle.portus_core.specs.Value.{at_place};
ghost use Rattle.portus_core.specs.Command.{Going, value_in};
ghost use Rattle.range_cases.specs.Listing.{KeepsListed};
ghost use Rattle.range_cases.specs.Cases.{IsCase, Gives, Meets};

use crate::case::Case;
use crate::listed::{Listed, list};
use ccp_base::{NoMemory, Op2, Place, Sequence, bool_number};
use portus_core::Expr;
use value_ranges::{Range, applied};

/// The range of an expression's values; None if it always has a fault.
#[tactic(auto, using(crate::proofs::TermLemmas::gives))]
pub fn range_of(expr: &Expr, case: &Case) -> Option<Range>
    ensures { (ack : Ack) (going : Going) → IsCase case.now ack going
        → Gives result (value_in (term_of expr.now) ack going) }
{
    match expr {
        Expr::Num(number) => Some(Range::only(*number)),
        Expr::Truth(truth) => Some(Range::only(bool_number(*truth))),
        Expr::Var(var) => Some(case.read(*var)),
        Expr::Pair(op, _, left, right) => match range_of(left, case) {
            None => None,
            Some(a) => match range_of(right, case) {
                None => None,
                Some(b) => applied(*op, a, b).values,
            },
        },
    }
}

/// The range of an expression's values, with its faults listed; None if it always has one.
#[tactic(auto, using(crate::proofs::TermLemmas::meets))]
pub fn evaluated(
    expr: &Expr,
    case: &Case,
    turn: u32,
    faults: &mut Sequence<Listed>,
) -> Result<Option<Range>, NoMemory>
    ensures meets { IfOk result (λ found. (ack : Ack) (going : Going) → IsCase case.now ack going
        → Meets faults.new turn found (value_in (term_of expr.now) ack going)) }
    ensures keeps { KeepsListed faults.old faults.new }
{
    match expr {
        Expr::Num(number) => Ok(Some(Range::only(*number))),
        Expr::Truth(truth) => Ok(Some(Range::only(bool_number(*truth)))),
        Expr::Var(var) => Ok(Some(case.read(*var))),
        Expr::Pair(op, place, left, right) => match evaluated(left, case, turn, faults)? {
            None => Ok(None),
            Some(a) => match evaluated(right, case, turn, faults)? {
                None => Ok(None),
                Some(b) => operated(*op, *place, a, b, turn, faults),
            },
        },
    }
}

/// The range of an operation's results, with its fault listed; None if it always has one.
#[tactic(auto, using(crate::proofs::TermLemmas::meets))]
fn operated(
    op: Op2,
    place: Place,
    a: Range,
    b: Range,
    turn: u32,
    faults: &mut Sequence<Listed>,
) -> Result<Option<Range>, NoMemory>
    ensures meets { IfOk result (λ found. (x y : ℕ) → IsIn a x → IsIn b y
        → Meets faults.new turn found (at_place place (apply op x y))) }
    ensures keeps { KeepsListed faults.old faults.new }
{
    let reach = applied(op, a, b);
    match reach.fault {
        None => Ok(reach.values),
        Some(kind) => {
            list(faults, kind, place, turn)?;
            Ok(reach.values)
        }
    }
}

//! The value of an expression without names, if it doesn't fault, computed when the program is compiled.
ghost use Rattle.std.specs.Prelude.{◌≡◌};
ghost use Rattle.portus_core.specs.Programs.{term_of};
ghost use Rattle.reg_compiler.specs.Known.{known_value};

use ccp_base::bool_number;
use portus_core::Expr;

/// The value of an expression that has no name and doesn't fault: it is the same for every state and every
/// acknowledgement.
#[tactic(auto, using(portus_core::specs::Programs::terms))]
pub fn known_value(expr: &Expr) -> Option<u64>
    ensures { result ≡ known_value (term_of expr.now) }
{
    match expr {
        Expr::Num(number) => Some(*number),
        Expr::Truth(truth) => Some(bool_number(*truth)),
        Expr::Var(_) => None,
        Expr::Pair(op, _, left, right) => op.apply(known_value(left)?, known_value(right)?).ok(),
    }
}

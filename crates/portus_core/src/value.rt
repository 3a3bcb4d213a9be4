//! The value of an expression or a name, or the fault of an operation with its place.
ghost use Rattle.std.specs.Prelude.{◌≡◌, IfSome, Ok, slice_index, unwrap_or};
ghost use Rattle.ccp_base.specs.Acknowledgement.{prim};
ghost use Rattle.portus_core.specs.Programs.{term_of};
ghost use Rattle.portus_core.specs.Value.{read_of, value_of};
ghost use Rattle.portus_core.specs.Progress.{locals_of};

use crate::env::Env;
use crate::program::{Expr, Var};
use ccp_base::{Ack, FaultKind, PRIMITIVES, Place, bool_number, prim};

/// An operation that has no result, with the place of its head atom.
pub type Fault = (FaultKind, Place);

/// The values of a body's locals by number, None before their first assignment.
pub type Locals = [Option<u64>; 8];

/// The value of an expression. Both parts of an operation are evaluated, the left one first, and the first fault is the
/// answer.
#[tactic(auto, using(crate::specs::Programs::terms))]
pub fn value(expr: &Expr, env: &Env, locals: &Locals, ack: &Ack) -> Result<u64, Fault>
    ensures { result ≡ value_of (term_of expr.now) env.now (locals_of locals.now) ack.entry.now }
{
    match expr {
        Expr::Num(number) => Ok(*number),
        Expr::Truth(truth) => Ok(bool_number(*truth)),
        Expr::Var(var) => Ok(read(*var, env, locals, ack)),
        Expr::Pair(op, place, left, right) => {
            let a = match leaf(left, env, locals, ack) {
                Some(a) => a,
                None => value(left, env, locals, ack)?,
            };
            let b = match leaf(right, env, locals, ack) {
                Some(b) => b,
                None => value(right, env, locals, ack)?,
            };
            op.apply(a, b).map_err(|kind| (kind, *place))
        }
    }
}

// Inlined into `value`, so that only an operation within an operation is a call.
/// The value of an expression without an operation, None if it has one.
#[inline(always)]
#[tactic(auto, using(crate::specs::Programs::terms))]
fn leaf(expr: &Expr, env: &Env, locals: &Locals, ack: &Ack) -> Option<u64>
    ensures { IfSome result
        (λ number. value_of (term_of expr.now) env.now (locals_of locals.now) ack.entry.now ≡ Ok number) }
{
    match expr {
        Expr::Num(number) => Some(*number),
        Expr::Truth(truth) => Some(bool_number(*truth)),
        Expr::Var(var) => Some(read(*var, env, locals, ack)),
        Expr::Pair(_, _, _, _) => None,
    }
}

/// The value of a name, 0 for a name without a meaning.
#[inline(always)]
pub fn read(var: Var, env: &Env, locals: &Locals, ack: &Ack) -> u64
    ensures { result ≡ read_of var env.now (locals_of locals.now) ack.entry.now }
{
    match var {
        Var::Field(i) => number_at(env.fields.as_slice(), i),
        Var::Control(i) => number_at(env.controls.as_slice(), i),
        Var::Local(i) => local_at(locals, i),
        Var::Cwnd => env.cwnd,
        Var::Rate => env.rate,
        Var::Micros => ack.now.saturating_sub(env.zero),
        Var::Prim(n) => prim_at(ack, n),
    }
}

fn number_at(numbers: &[u64], i: u32) -> u64
    ensures { result ≡ slice_index numbers.now i }
{
    if (i as usize) < numbers.len() {
        numbers[i as usize]
    } else {
        0
    }
}

fn local_at(locals: &Locals, i: u32) -> u64
    ensures { result ≡ unwrap_or (locals_of locals.now i) 0 }
{
    if (i as usize) < locals.len() {
        locals[i as usize].unwrap_or(0)
    } else {
        0
    }
}

fn prim_at(ack: &Ack, n: u32) -> u64
    ensures { result ≡ prim n ack.entry.now }
{
    if n < PRIMITIVES { prim(ack, n) } else { 0 }
}

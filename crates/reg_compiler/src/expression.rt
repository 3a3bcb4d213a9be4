//! How expressions are compiled: operands in registers or temporaries, and the lines that fill them.
ghost use Rattle.std.specs.Prelude.{◌≡◌, ◌+◌, ◌++◌, ◌∷◌, [], ◌≤◌, max, IsTrue, IfOk, OnOk};
ghost use Rattle.ccp_base.specs.Limits.{most_temps};
ghost use Rattle.portus_core.specs.Programs.{term_of};
ghost use Rattle.reg_compiler.specs.Needs.{kept_temporaries, need_of};
ghost use Rattle.reg_compiler.specs.Numbered.{is_numbered_term};
ghost use Rattle.reg_compiler.specs.CompiledCode.{direct_operand, operand, first_free_after, operand_lines, both_from, value_lines};

use crate::known::known_value;
use crate::line::{Lines, bind_line, operation_line};
use crate::registers::reg_of;
use ccp_base::{Place, bool_number};
use portus_core::Expr;
use reg_code::{Op, Reg};
use std::alloc::AllocError;

/// Appends the lines that put an expression's value into a register. The last one writes it, and the others write
/// temporaries from `free` on.
#[cycle(expression)]
#[tactic(auto, using(portus_core::specs::Programs::terms))]
pub fn value_lines(expr: &Expr, to: Reg, free: u8, lines: &mut Lines) -> Result<(), AllocError>
    requires names { IsTrue (is_numbered_term (term_of expr.now)) }
    requires fits { need_of (term_of expr.now) + free ≤ most_temps }
    ensures { OnOk result (lines.new ≡ lines.old ++ value_lines to (term_of expr.now) free) }
{
    match expr {
        Expr::Num(number) => lines.push(bind_line(to, Reg::Imm(*number))),
        Expr::Truth(truth) => lines.push(bind_line(to, Reg::Imm(bool_number(*truth)))),
        Expr::Var(var) => lines.push(bind_line(to, reg_of(*var))),
        Expr::Pair(op, place, left, right) => match known_value(expr) {
            Some(value) => lines.push(bind_line(to, Reg::Imm(value))),
            None => operation_lines(Op::Pair(*op), to, *place, left, right, free, lines),
        },
    }
}

/// Appends the lines of two operands and of the operation on them.
#[cycle(expression)]
pub fn operation_lines(
    op: Op,
    to: Reg,
    place: Place,
    left: &Expr,
    right: &Expr,
    free: u8,
    lines: &mut Lines,
) -> Result<(), AllocError>
    requires left_names { IsTrue (is_numbered_term (term_of left.now)) }
    requires right_names { IsTrue (is_numbered_term (term_of right.now)) }
    requires left_fits { need_of (term_of left.now) + free ≤ most_temps }
    requires right_fits { need_of (term_of right.now) + kept_temporaries (term_of left.now) + free ≤ most_temps }
    ensures { OnOk result
        (lines.new ≡ lines.old ++ both_from op to place (term_of left.now) (term_of right.now) free) }
{
    let first = operand(left, free, lines)?;
    let second = operand(right, first_free_after(left, free), lines)?;
    lines.push(operation_line(op, to, first, second, place))
}

/// The operand of an expression: the register of a name, a number that is known, or else the temporary `free`, with
/// the lines appended that put the value there.
#[cycle(expression)]
pub fn operand(expr: &Expr, free: u8, lines: &mut Lines) -> Result<Reg, AllocError>
    requires names { IsTrue (is_numbered_term (term_of expr.now)) }
    requires fits { need_of (term_of expr.now) + free ≤ most_temps }
    ensures operand { IfOk result (λ register. register ≡ operand (term_of expr.now) free) }
    ensures lines { OnOk result (lines.new ≡ lines.old ++ operand_lines (term_of expr.now) free) }
{
    match direct_operand(expr) {
        Some(register) => Ok(register),
        None => {
            value_lines(expr, Reg::Temp(free), free, lines)?;
            Ok(Reg::Temp(free))
        }
    }
}

/// The operand of an expression that needs no instruction.
#[tactic(auto, using(portus_core::specs::Programs::terms))]
fn direct_operand(expr: &Expr) -> Option<Reg>
    requires { IsTrue (is_numbered_term (term_of expr.now)) }
    ensures { result ≡ direct_operand (term_of expr.now) }
{
    match expr {
        Expr::Num(number) => Some(Reg::Imm(*number)),
        Expr::Truth(truth) => Some(Reg::Imm(bool_number(*truth))),
        Expr::Var(var) => Some(reg_of(*var)),
        Expr::Pair(..) => known_value(expr).map(Reg::Imm),
    }
}

/// The first temporary that is free after the operand of an expression.
fn first_free_after(expr: &Expr, free: u8) -> u8
    requires names { IsTrue (is_numbered_term (term_of expr.now)) }
    requires fits { free ≤ most_temps }
    ensures free { result ≡ first_free_after (term_of expr.now) free }
    ensures within { result ≤ free + kept_temporaries (term_of expr.now) }
{
    if direct_operand(expr).is_some() {
        free
    } else {
        free + 1
    }
}

//! The rules of acceptance for an instruction at its place, and the first that it fails.
ghost use Rattle.std.specs.Prelude.{◌≡◌, ◌&&◌, not, IsTrue, IfNone};
ghost use Rattle.reg_code.specs.Forms.{is_micros};
ghost use Rattle.reg_code.specs.AcceptedCode.{rule_where, is_there, are_there, is_readable, missing_value, missing_target_value, is_bind, is_ewma, is_zero, is_weight, is_fixed, is_flag_reg, is_temp, is_in_condition, is_misplaced, rule_failed};
ghost use Rattle.code_verifier.specs.Marked.{marks_of};

use crate::tables::{Tables, has_mark, writes};
use reg_code::{Implicit, Instr, LOCALS, Op, PRIMITIVES, Part, Reg, Rule, Sizes, TEMPS, TENTHS};

/// The first rule that an instruction fails at its place.
pub fn rule_failed(
    sizes: Sizes,
    part: Part,
    is_last: bool,
    tables: &Tables,
    instr: &Instr,
) -> Option<Rule>
    ensures rule { result ≡ rule_failed sizes part is_last (marks_of tables.now) instr.now }
    ensures there { IfNone result (IsTrue (is_there sizes instr.now.to)) }
{
    rule_where(is_outside(sizes, instr), Rule::Range)
        .or(rule_where(reads_unreadable(instr), Rule::Readable))
        .or(missing_value(tables, instr.left))
        .or(missing_value(tables, instr.right))
        .or(missing_target_value(tables, instr))
        .or(rule_where(lacks_weight(instr), Rule::Weight))
        .or(rule_where(binds_by_more(instr), Rule::BindRight))
        .or(rule_where(is_misplaced(part, is_last, instr), Rule::Writable))
}

fn rule_where(fails: bool, rule: Rule) -> Option<Rule>
    ensures { result ≡ rule_where fails rule }
{
    if fails { Some(rule) } else { None }
}

/// Whether one of its registers doesn't exist.
fn is_outside(sizes: Sizes, instr: &Instr) -> bool
    ensures { result ≡ not (are_there sizes instr.now) }
{
    !(is_there(sizes, instr.left) && is_there(sizes, instr.right) && is_there(sizes, instr.to))
}

/// Whether an operand is one that may not be read.
fn reads_unreadable(instr: &Instr) -> bool
    ensures { result ≡ not (is_readable instr.now.left && is_readable instr.now.right) }
{
    !(is_readable(instr.left) && is_readable(instr.right))
}

/// Whether it is `Ewma` without a weight.
fn lacks_weight(instr: &Instr) -> bool
    ensures { result ≡ (is_ewma instr.now.op && not (is_weight instr.now.left)) }
{
    is_ewma(instr.op) && !is_weight(instr.left)
}

/// Whether it is `Bind` with a second operand that isn't the immediate 0.
fn binds_by_more(instr: &Instr) -> bool
    ensures { result ≡ (is_bind instr.now.op && not (is_zero instr.now.right)) }
{
    is_bind(instr.op) && !is_zero(instr.right)
}

/// Whether a register with this number exists.
fn is_there(sizes: Sizes, operand: Reg) -> bool
    ensures { result ≡ is_there sizes operand }
{
    match operand {
        Reg::Imm(_) | Reg::Implicit(_) => true,
        Reg::Prim(n) => u32::from(n) < PRIMITIVES,
        Reg::Report(i) => usize::from(i) < sizes.reports,
        Reg::Control(i) => usize::from(i) < sizes.controls,
        Reg::Local(i) => i < LOCALS,
        Reg::Temp(i) => i < TEMPS,
    }
}

/// Whether a register may be an operand.
fn is_readable(operand: Reg) -> bool
    ensures { result ≡ is_readable operand }
{
    !matches!(
        operand,
        Reg::Implicit(Implicit::Flag | Implicit::Fall | Implicit::Send)
    )
}

/// Why a register that is read has no value yet.
fn missing_value(tables: &Tables, operand: Reg) -> Option<Rule>
    ensures { result ≡ missing_value (marks_of tables.now) operand }
{
    match operand {
        Reg::Temp(i) => rule_where(!has_mark(&tables.temps, i), Rule::Temporary),
        Reg::Local(i) => rule_where(!has_mark(&tables.locals, i), Rule::Local),
        _ => None,
    }
}

/// The same of the target, which `Ewma` reads too.
fn missing_target_value(tables: &Tables, instr: &Instr) -> Option<Rule>
    ensures { result ≡ missing_target_value (marks_of tables.now) instr.now }
{
    if is_ewma(instr.op) {
        missing_value(tables, instr.to)
    } else {
        None
    }
}

fn is_bind(op: Op) -> bool
    ensures { result ≡ is_bind op }
{
    matches!(op, Op::Bind)
}

fn is_ewma(op: Op) -> bool
    ensures { result ≡ is_ewma op }
{
    matches!(op, Op::Ewma)
}

/// Whether it is the immediate 0.
fn is_zero(operand: Reg) -> bool
    ensures { result ≡ is_zero operand }
{
    matches!(operand, Reg::Imm(0))
}

/// Whether it is an immediate from 0 to 10.
fn is_weight(operand: Reg) -> bool
    ensures { result ≡ is_weight operand }
{
    match operand {
        Reg::Imm(value) => value <= TENTHS,
        _ => false,
    }
}

/// Whether it can't be written at all.
fn is_fixed(to: Reg) -> bool
    ensures { result ≡ is_fixed to }
{
    matches!(to, Reg::Imm(_) | Reg::Prim(_))
}

fn is_micros(to: Reg) -> bool
    ensures { result ≡ is_micros to }
{
    matches!(to, Reg::Implicit(Implicit::Micros))
}

fn is_flag(to: Reg) -> bool
    ensures { result ≡ is_flag_reg to }
{
    matches!(to, Reg::Implicit(Implicit::Flag))
}

fn is_temp(to: Reg) -> bool
    ensures { result ≡ is_temp to }
{
    matches!(to, Reg::Temp(_))
}

/// Whether the instruction may not write its target at its place.
fn is_misplaced(part: Part, is_last: bool, instr: &Instr) -> bool
    ensures { result ≡ is_misplaced part is_last instr.now }
{
    let Instr { op, to, left, .. } = *instr;
    let in_condition = is_in_condition(part);
    is_fixed(to)
        || (is_micros(to) && !(is_bind(op) && is_zero(left)))
        || (in_condition && !(is_temp(to) || is_flag(to)))
        || (!in_condition && is_flag(to))
        || (in_condition && is_last && !(writes(op) && is_flag(to)))
        || (is_ewma(op) && !is_readable(to))
}

fn is_in_condition(part: Part) -> bool
    ensures { result ≡ is_in_condition part }
{
    matches!(part, Part::Condition)
}

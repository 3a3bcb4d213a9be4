//! How assignments are scoped: plain ones, `if`, `!if` and `ewma`, each with its target and types.
ghost use Rattle.std.specs.Prelude.{◌≡◌, ◌≢◌, OnOk, OnErr, IfOk, IfErr, Ok, Err};
ghost use Rattle.portus_core.specs.Trees.{node_of, nodes_of};
ghost use Rattle.portus_core.specs.Programs.{action_of, term_of};
ghost use Rattle.scope_types.specs.CommandWalk.{kind_walk, choice_action, choice_walk, weight_walk, ewma_walk};
ghost use Rattle.scope_types.specs.CommandWalk.{set_walk, plain_assignment_walk, value_walk, assignment_walk};
ghost use Rattle.scope_types.specs.Cuts.{node_place};
ghost use Rattle.scope_types.specs.Scope.{scope_of};
ghost use Rattle.scope_types.specs.WalkResults.{EndsWalk, GivesCommand, GivesSet};

use crate::cut::{Cut, cut_first, place_of};
use crate::expression::expression;
use crate::fault::{ScopeFault, What};
use crate::meaning::{is_bool, is_bool_variable};
use crate::names::{Local, Names};
use crate::target::{Target, known_variable, number, target_of};
use ccp_base::{Name, Place, same_bytes};
use portus_core::{Cmd, Expr, Parts, Tree, Var, take_apart};
use std::alloc::Global;

/// The most locals of a body.
const LOCALS: usize = 8;

/// Refuses an expression that isn't a Bool, if one is required.
pub(crate) fn check_kind(
    names: &Names,
    wanted: bool,
    at: Place,
    expr: &Expr,
) -> Result<(), ScopeFault>
    ensures ok { OnOk result (kind_walk (scope_of names.now) wanted at (term_of expr.now) ≡ Ok (term_of expr.now)) }
    ensures err { IfErr result (λ e. kind_walk (scope_of names.now) wanted at (term_of expr.now) ≡ Err e) }
{
    if wanted && !is_bool(names, expr) {
        return Err(ScopeFault::Kind(at));
    }
    Ok(())
}

/// The command of `if`, or of `!if` if `when_true` is false.
fn choice_command(when_true: bool, head: Place, var: Var, condition: Expr, value: Expr) -> Cmd
    ensures { action_of result ≡ choice_action when_true head var (term_of condition) (term_of value) }
{
    if when_true {
        Cmd::SetIf(head, var, condition, value)
    } else {
        Cmd::SetUnless(head, var, condition, value)
    }
}

/// The assignment of `if`, or of `!if` if `when_true` is false.
fn choice(
    alloc: Global,
    names: &Names,
    target: Target,
    when_true: bool,
    at: Place,
    head: Place,
    parts: &[Tree],
) -> Result<Cmd, ScopeFault>
    ensures ok { let walk = choice_walk (scope_of names.now) target when_true at head (nodes_of parts.now) in
        IfOk result (GivesCommand walk names.now) }
    ensures err { let walk = choice_walk (scope_of names.now) target when_true at head (nodes_of parts.now) in
        IfErr result (EndsWalk walk) }
{
    let Parts::Two(first, second) = take_apart(parts) else {
        return Err(ScopeFault::Misplaced(at));
    };
    let var = known_variable(target)?;
    let condition = expression(alloc, names, first)?;
    let value = expression(alloc, names, second)?;
    check_kind(names, true, place_of(first), &condition)?;
    check_kind(
        names,
        is_bool_variable(names, var),
        place_of(second),
        &value,
    )?;
    Ok(choice_command(when_true, head, var, condition, value))
}

/// A weight in tenths.
fn weight(tree: &Tree) -> Result<u64, ScopeFault>
    ensures { result ≡ weight_walk (node_of tree.now) }
{
    match tree {
        Tree::Num(at, value) => {
            if *value <= 10 {
                Ok(*value)
            } else {
                Err(ScopeFault::Kind(*at))
            }
        }
        Tree::Word(at, _) => Err(ScopeFault::Kind(*at)),
        Tree::List(at, _) => Err(ScopeFault::Kind(*at)),
    }
}

/// The assignment of `ewma`.
fn ewma(
    alloc: Global,
    names: &Names,
    target: Target,
    at: Place,
    head: Place,
    parts: &[Tree],
) -> Result<Cmd, ScopeFault>
    ensures ok { let walk = ewma_walk (scope_of names.now) target at head (nodes_of parts.now) in
        IfOk result (GivesCommand walk names.now) }
    ensures err { IfErr result (EndsWalk (ewma_walk (scope_of names.now) target at head (nodes_of parts.now))) }
{
    let Parts::Two(first, second) = take_apart(parts) else {
        return Err(ScopeFault::Misplaced(at));
    };
    let var = number(names, target)?;
    let tenths = weight(first)?;
    let value = expression(alloc, names, second)?;
    Ok(Cmd::Ewma(head, var, tenths, value))
}

/// The variable that the expression is assigned to; a word without a meaning becomes a local.
fn assign_target(
    names: &mut Names,
    target: Target,
    value_at: Place,
    value: &Expr,
) -> Result<Var, ScopeFault>
    ensures ok { let walk = set_walk (scope_of names.old) target value_at (term_of value.now) in
        IfOk result (GivesSet walk names.new (term_of value.now)) }
    ensures err { IfErr result (EndsWalk (set_walk (scope_of names.old) target value_at (term_of value.now))) }
{
    match target {
        Target::Known(_, var) => {
            check_kind(names, is_bool_variable(names, var), value_at, value)?;
            Ok(var)
        }
        Target::Fresh(at, name) => {
            let count = names.locals.len();
            if count >= LOCALS {
                return Err(ScopeFault::TooMany(at, What::Locals));
            }
            let truth = is_bool(names, value);
            names.locals.push(Local { name, truth })?;
            Ok(Var::Local(count as u32))
        }
    }
}

/// The assignment of what must be an expression.
fn plain_assignment(
    alloc: Global,
    names: &mut Names,
    target: Target,
    value: &Tree,
) -> Result<Cmd, ScopeFault>
    ensures ok { IfOk result
        (GivesCommand (plain_assignment_walk (scope_of names.old) target (node_of value.now)) names.new) }
    ensures err { IfErr result (EndsWalk (plain_assignment_walk (scope_of names.old) target (node_of value.now))) }
{
    let expr = expression(alloc, names, value)?;
    let var = assign_target(names, target, place_of(value), &expr)?;
    Ok(Cmd::Set(var, expr))
}

/// The assignment of a value to another target than `Micros`.
fn assign(alloc: Global, names: &mut Names, target: Target, value: &Tree) -> Result<Cmd, ScopeFault>
    ensures ok { IfOk result (GivesCommand (value_walk (scope_of names.old) target (node_of value.now)) names.new) }
    ensures err { IfErr result (EndsWalk (value_walk (scope_of names.old) target (node_of value.now))) }
{
    match value {
        Tree::List(at, parts) => match cut_first(parts.as_slice()) {
            Cut::First(Tree::Word(head, w), rest) => {
                if same_bytes(w.as_slice(), b"if") {
                    choice(alloc, names, target, true, *at, *head, rest)
                } else if same_bytes(w.as_slice(), b"!if") {
                    choice(alloc, names, target, false, *at, *head, rest)
                } else if same_bytes(w.as_slice(), b"ewma") {
                    ewma(alloc, names, target, *at, *head, rest)
                } else {
                    plain_assignment(alloc, names, target, value)
                }
            }
            _ => plain_assignment(alloc, names, target, value),
        },
        Tree::Num(_, _) => plain_assignment(alloc, names, target, value),
        Tree::Word(_, _) => plain_assignment(alloc, names, target, value),
    }
}

/// An assignment: its target is checked first, and only the numeral 0 may be assigned to `Micros`.
pub(crate) fn assignment(
    alloc: Global,
    names: &mut Names,
    target: &Tree,
    value: &Tree,
) -> Result<Cmd, ScopeFault>
    ensures ok { let walk = assignment_walk (scope_of names.old) (node_of target.now) (node_of value.now) in
        IfOk result (GivesCommand walk names.new) }
    ensures err { let walk = assignment_walk (scope_of names.old) (node_of target.now) (node_of value.now) in
        IfErr result (EndsWalk walk) }
{
    match target_of(names, target)? {
        Target::Known(_, Var::Micros) => {
            if let Tree::Num(_, 0) = value {
                return Ok(Cmd::ZeroMicros);
            }
            Err(ScopeFault::Micros(place_of(value)))
        }
        other => assign(alloc, names, other, value),
    }
}

//! How expressions and the words in them are scoped, the left part before the right one.
ghost use Rattle.std.specs.Prelude.{◌≡◌, ◌≢◌, IfOk, IfErr, Ok, Err};
ghost use Rattle.ccp_base.specs.Outside.{no_memory};
ghost use Rattle.portus_core.specs.Trees.{node_of};
ghost use Rattle.portus_core.specs.Programs.{term_of, pair};
ghost use Rattle.scope_types.specs.ExpressionWalk.{expression_walk, variable_walk, word_walk};
ghost use Rattle.portus_core.specs.Words.{variable_of};
ghost use Rattle.scope_types.specs.ValueWords.{constant_of};
ghost use Rattle.scope_types.specs.Scope.{scope_of};
ghost use Rattle.scope_types.specs.WalkResults.{EndsWalk};

use crate::fault::ScopeFault;
use crate::meaning::meaning_of;
use crate::names::Names;
use crate::words::{is_reserved, variable_of};
use ccp_base::{Place, operator_of, same_bytes};
use portus_core::{Expr, Op2, Parts, Tree, Var, take_apart};
use std::alloc::Global;

/// The variable that a word names.
pub(crate) fn variable(names: &Names, at: Place, w: &[u8]) -> Result<Var, ScopeFault>
    ensures { result ≡ variable_walk (scope_of names.now) at w.now (variable_of w.now) }
{
    if let Some(var) = variable_of(w) {
        return Ok(var);
    }
    if is_reserved(w) {
        return Err(ScopeFault::Misplaced(at));
    }
    meaning_of(names, w).ok_or(ScopeFault::Unknown(at))
}

/// The value of a word, or the variable that it names.
fn word(names: &Names, at: Place, w: &[u8]) -> Result<Expr, ScopeFault>
    ensures ok { IfOk result (λ e. word_walk (scope_of names.now) at w.now (constant_of w.now) ≡ Ok (term_of e)) }
    ensures err { IfErr result (λ e. word_walk (scope_of names.now) at w.now (constant_of w.now) ≡ Err e) }
{
    if same_bytes(w, b"true") {
        Ok(Expr::Truth(true))
    } else if same_bytes(w, b"false") {
        Ok(Expr::Truth(false))
    } else if same_bytes(w, b"+infinity") {
        Ok(Expr::Num(u64::MAX))
    } else {
        Ok(Expr::Var(variable(names, at, w)?))
    }
}

/// An operation on two values.
fn pair(alloc: Global, op: Op2, head: Place, left: Expr, right: Expr) -> Result<Expr, ScopeFault>
    ensures ok { IfOk result (λ e. term_of e ≡ pair op head (term_of left) (term_of right)) }
    ensures err { IfErr result (λ e. e ≡ ScopeFault.NoMemory no_memory) }
{
    let left = Box::new(alloc, left)?;
    let right = Box::new(alloc, right)?;
    Ok(Expr::Pair(op, head, left, right))
}

/// An expression: the left part is checked before the right one.
pub(crate) fn expression(alloc: Global, names: &Names, tree: &Tree) -> Result<Expr, ScopeFault>
    ensures ok { IfOk result (λ e. expression_walk (scope_of names.now) (node_of tree.now) ≡ Ok (term_of e)) }
    ensures err { IfErr result (EndsWalk (expression_walk (scope_of names.now) (node_of tree.now))) }
{
    match tree {
        Tree::Num(_, value) => Ok(Expr::Num(*value)),
        Tree::Word(at, w) => word(names, *at, w.as_slice()),
        Tree::List(at, parts) => match take_apart(parts.as_slice()) {
            Parts::Three(Tree::Word(head, w), left, right) => match operator_of(w.as_slice()) {
                None => Err(ScopeFault::Misplaced(*at)),
                Some(op) => {
                    let left = expression(alloc, names, left)?;
                    let right = expression(alloc, names, right)?;
                    pair(alloc, op, *head, left, right)
                }
            },
            _ => Err(ScopeFault::Misplaced(*at)),
        },
    }
}

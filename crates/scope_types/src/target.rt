//! The targets of assignments: variables, or new words that a plain assignment makes locals.
ghost use Rattle.std.specs.Prelude.{◌≡◌};
ghost use Rattle.portus_core.specs.Trees.{node_of};
ghost use Rattle.portus_core.specs.Words.{variable_of};
ghost use Rattle.scope_types.specs.CommandWalk.{named_target_walk, word_target_walk, target_walk};
ghost use Rattle.scope_types.specs.CommandWalk.{known_variable_walk, number_walk};
ghost use Rattle.scope_types.specs.Scope.{scope_of};

use crate::fault::ScopeFault;
use crate::meaning::{is_bool_variable, meaning_of};
use crate::names::Names;
use crate::words::{is_field_use, is_primitive_use, is_reserved, variable_of};
use ccp_base::{Name, Place};
use portus_core::{Tree, Var};

/// The target of an assignment.
#[derive(Clone, Copy)]
pub(crate) enum Target {
    /// A name with a meaning.
    Known(Place, Var),
    /// A word without a meaning, which a plain assignment makes a local.
    Fresh(Place, Name),
}

/// The target of a word with this meaning, or without one, that isn't a word of the language.
fn named_target(at: Place, w: Name, meaning: Option<Var>) -> Result<Target, ScopeFault>
    ensures { result ≡ named_target_walk at w meaning }
{
    match meaning {
        Some(Var::Prim(_)) => Err(ScopeFault::NotWritable(at)),
        Some(var) => Ok(Target::Known(at, var)),
        None => {
            if is_field_use(w.as_slice()) || is_primitive_use(w.as_slice()) {
                Err(ScopeFault::Unknown(at))
            } else {
                Ok(Target::Fresh(at, w))
            }
        }
    }
}

/// The target that a word is.
fn word_target(names: &Names, at: Place, w: Name) -> Result<Target, ScopeFault>
    ensures { result ≡ word_target_walk (scope_of names.now) at w (variable_of w) }
{
    if let Some(var) = variable_of(w.as_slice()) {
        return Ok(Target::Known(at, var));
    }
    if is_reserved(w.as_slice()) {
        return Err(ScopeFault::Misplaced(at));
    }
    named_target(at, w, meaning_of(names, w.as_slice()))
}

/// The target of an assignment.
pub(crate) fn target_of(names: &Names, tree: &Tree) -> Result<Target, ScopeFault>
    ensures { result ≡ target_walk (scope_of names.now) (node_of tree.now) }
{
    match tree {
        Tree::Word(at, w) => word_target(names, *at, *w),
        Tree::Num(at, _) => Err(ScopeFault::Misplaced(*at)),
        Tree::List(at, _) => Err(ScopeFault::Misplaced(*at)),
    }
}

/// A target that has a meaning.
pub(crate) fn known_variable(target: Target) -> Result<Var, ScopeFault>
    ensures { result ≡ known_variable_walk target }
{
    match target {
        Target::Known(_, var) => Ok(var),
        Target::Fresh(at, _) => Err(ScopeFault::Unknown(at)),
    }
}

/// A target that has a meaning and is a number.
pub(crate) fn number(names: &Names, target: Target) -> Result<Var, ScopeFault>
    ensures { result ≡ number_walk (scope_of names.now) target }
{
    match target {
        Target::Known(at, var) => {
            if is_bool_variable(names, var) {
                Err(ScopeFault::Kind(at))
            } else {
                Ok(var)
            }
        }
        Target::Fresh(at, _) => Err(ScopeFault::Unknown(at)),
    }
}

//! The meaning of a declared or local name, and whether a variable or an expression is a Bool.
ghost use Rattle.std.specs.Prelude.{◌≡◌, ◌≤◌, length, map, slice_get};
ghost use Rattle.ccp_base.specs.Limits.{most_locals};
ghost use Rattle.portus_core.specs.Programs.{term_of};
ghost use Rattle.portus_core.specs.ValidPrograms.{declares_truth, is_bool_there};
ghost use Rattle.scope_types.specs.declared.names.Local.{Local};
ghost use Rattle.scope_types.specs.CommandWalk.{is_bool, wants_bool};
ghost use Rattle.scope_types.specs.Names.{local_from, meaning_of};
ghost use Rattle.scope_types.specs.Scope.{scope_of};

use crate::declarations::Declarations;
use crate::names::{Local, Names};
use crate::words::is_field_use;
use ccp_base::{is_flag, primitive_named, same_bytes};
use portus_core::{Expr, Var};

/// The number of the local that has this name.
fn find_local(locals: &[Local], name: &[u8]) -> Option<u32>
    requires { length locals.now ≤ most_locals }
    ensures { result ≡ local_from 0 locals.now name.now }
{
    let mut i = 0;
    let mut rest = locals;
    while let Some((local, later)) = rest.split_first() {
        if same_bytes(local.name.as_slice(), name) {
            return Some(i);
        }
        i += 1;
        rest = later;
    }
    None
}

/// The meaning of a word that isn't reserved.
pub(crate) fn meaning_of(names: &Names, w: &[u8]) -> Option<Var>
    ensures { result ≡ meaning_of (scope_of names.now) w.now }
{
    if is_field_use(w) {
        return names.fields.position(&w[7..]).map(Var::Field);
    }
    if let Some(number) = primitive_named(w) {
        return Some(Var::Prim(number as u32));
    }
    if let Some(number) = names.controls.position(w) {
        return Some(Var::Control(number));
    }
    find_local(names.locals.as_slice(), w).map(Var::Local)
}

/// Whether a declaration is of a Bool.
fn is_bool_decl(decls: &Declarations, number: u32) -> bool
    ensures { result ≡ declares_truth (slice_get decls.now number) }
{
    match decls.get(number) {
        Some(decl) => decl.truth,
        None => false,
    }
}

/// Whether a local is a Bool.
fn is_bool_local(locals: &[Local], number: u32) -> bool
    ensures { result ≡ is_bool_there (slice_get (map (λ (l : Local). l.truth) locals.now) number) }
{
    match locals.get(number as usize) {
        Some(local) => local.truth,
        None => false,
    }
}

/// Whether a variable is a Bool.
pub(crate) fn is_bool_variable(names: &Names, var: Var) -> bool
    ensures { result ≡ wants_bool (scope_of names.now) var }
{
    match var {
        Var::Field(number) => is_bool_decl(&names.fields, number),
        Var::Control(number) => is_bool_decl(&names.controls, number),
        Var::Local(number) => is_bool_local(names.locals.as_slice(), number),
        Var::Prim(number) => is_flag(number),
        Var::Cwnd | Var::Rate | Var::Micros => false,
    }
}

/// Whether an expression is a Bool.
pub(crate) fn is_bool(names: &Names, expr: &Expr) -> bool
    ensures { result ≡ is_bool (scope_of names.now) (term_of expr.now) }
{
    match expr {
        Expr::Num(_) => false,
        Expr::Truth(_) => true,
        Expr::Var(var) => is_bool_variable(names, *var),
        Expr::Pair(op, _, _, _) => op.gives_truth(),
    }
}

//! The words of the language: its variables and constants, and which words no program may declare.
ghost use Rattle.std.specs.Prelude.{◌≡◌};
ghost use Rattle.portus_core.specs.Words.{is_constant, variable_of, is_heading, is_reserved};
ghost use Rattle.portus_core.specs.Words.{is_field_use, is_primitive_use};

use ccp_base::{operator_of, same_bytes};
use portus_core::{Var, is_name_shaped};

/// The variable of the language that a word names.
pub(crate) fn variable_of(w: &[u8]) -> Option<Var>
    ensures { result ≡ variable_of w.now }
{
    if same_bytes(w, b"Cwnd") {
        Some(Var::Cwnd)
    } else if same_bytes(w, b"Rate") {
        Some(Var::Rate)
    } else if same_bytes(w, b"Micros") {
        Some(Var::Micros)
    } else {
        None
    }
}

/// Whether a form, a declaration or a command begins with this word.
fn is_heading(w: &[u8]) -> bool
    ensures { result ≡ is_heading w.now }
{
    same_bytes(w, b"def")
        || same_bytes(w, b"when")
        || same_bytes(w, b"Report")
        || same_bytes(w, b"volatile")
        || same_bytes(w, b"if")
        || same_bytes(w, b"ewma")
        || same_bytes(w, b"report")
        || same_bytes(w, b"fallthrough")
        || same_bytes(w, b"bind")
}

/// Whether the word is a value.
pub(crate) fn is_constant(w: &[u8]) -> bool
    ensures { result ≡ is_constant w.now }
{
    same_bytes(w, b"true") || same_bytes(w, b"false") || same_bytes(w, b"+infinity")
}

/// Whether no program may declare the word.
pub(crate) fn is_reserved(w: &[u8]) -> bool
    ensures { result ≡ is_reserved w.now }
{
    !is_name_shaped(w)
        || is_heading(w)
        || is_constant(w)
        || variable_of(w).is_some()
        || operator_of(w).is_some()
}

/// Whether the word names a field.
pub(crate) fn is_field_use(w: &[u8]) -> bool
    ensures { result ≡ is_field_use w.now }
{
    w.starts_with(b"Report.")
}

/// Whether only a primitive may be named so.
pub(crate) fn is_primitive_use(w: &[u8]) -> bool
    ensures { result ≡ is_primitive_use w.now }
{
    w.starts_with(b"Ack.") || w.starts_with(b"Flow.")
}

//! Where a program keeps the fields and control variables that agents know, found by their names.
ghost use Rattle.std.specs.Prelude.{◌≡◌, ◌≤◌, ◌<◌, length, position};
ghost use Rattle.std.specs.Option.{ForSome};
ghost use Rattle.std.specs.Str.{bytes_eq};
ghost use Rattle.ccp_base.specs.Limits.{most_controls, most_fields};
ghost use Rattle.portus_core.specs.ProgramForm.{form_of};
ghost use Rattle.portus_build.specs.Looks.{has_name, declaration_number, look_of};

use ccp_base::Look;
use portus_core::{Decl, Program};

/// Where a program keeps the fields and control variables that agents know, by their names.
pub fn look(program: &Program) -> Look
    ensures { result ≡ look_of (form_of program.now) }
{
    Look {
        acked: field_number(program, b"acked"),
        loss: field_number(program, b"loss"),
        timeout: field_number(program, b"timeout"),
        rtt: field_number(program, b"rtt"),
        inflight: field_number(program, b"inflight"),
        cap: control_number(program, b"cap"),
        mss: control_number(program, b"mss"),
        ecn: field_number(program, b"ecn"),
    }
}

fn field_number(program: &Program, name: &[u8]) -> Option<u32>
    ensures number { result ≡ declaration_number name.now (form_of program.now).fields }
    ensures below { ForSome result (λ n. n < most_fields) }
{
    number_of(program.fields.as_slice(), name)
}

fn control_number(program: &Program, name: &[u8]) -> Option<u32>
    ensures number { result ≡ declaration_number name.now (form_of program.now).controls }
    ensures below { ForSome result (λ n. n < most_controls) }
{
    number_of(program.controls.as_slice(), name)
}

/// The number of the declaration with this name, counted from 0. A program has no more control variables than fields.
fn number_of(decls: &[Decl], name: &[u8]) -> Option<u32>
    requires { length decls.now ≤ most_fields }
    ensures number { result ≡ declaration_number name.now decls.now }
    ensures below { ForSome result (λ n. n < most_fields) }
{
    let index = index_of(decls, name)?;
    Some(index as u32)
}

// A function of its own: a search followed by `?` isn't proved in one function.
fn index_of(decls: &[Decl], name: &[u8]) -> Option<usize>
    ensures index { result ≡ position (has_name name.now) decls.now }
    ensures within { ForSome result (λ i. i < length decls.now) }
{
    decls.iter().position(|decl| has_name(decl, name))
}

fn has_name(decl: &Decl, name: &[u8]) -> bool
    ensures { result ≡ has_name name.now decl.now }
{
    decl.name.as_slice() == name
}

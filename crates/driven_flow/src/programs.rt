//! The programs of driven flows, by their numbers.
ghost use Rattle.std.specs.Prelude.{◌≡◌, true, length};
ghost use Rattle.ccp_base.specs.FieldReg.{first_bad_pair};
ghost use Rattle.driven_flow.specs.Driven.{code_in, codes_of, is_known};

use ccp_base::Fields;
use reg_code::Checked;
use reg_compiler::Built;
use std::marker::Model;

/// Programs, each with its number. What flows do is a function of their codes.
#[derive(Drop)]
pub struct Programs<'p> {
    builts: &'p [(u32, Built)],
}

impl<'p> Model for Programs<'p> {
    ghost use Rattle.driven_flow.specs.Driven.{Codes, codes_of};

    ghost Value = { Codes };

    ghost view = { λ programs. codes_of programs.builts.now };
}

impl<'p> Programs<'p> {
    /// These programs.
    pub fn new(builts: &'p [(u32, Built)]) -> Self
        ensures { result ≡ codes_of builts.now }
    {
        Programs { builts }
    }

    /// The programs, each with its number.
    pub fn builts(&self) -> &'p [(u32, Built)]
        ensures { codes_of result.now ≡ self.now }
    {
        self.builts
    }
}

/// Whether one of the programs has this number.
pub fn is_known(programs: &Programs, number: u32) -> bool
    ensures { result ≡ is_known programs.now number }
{
    has_number(programs.builts, number)
}

/// Whether one of the programs has this number.
fn has_number(builts: &[(u32, Built)], number: u32) -> bool
    ensures { result ≡ is_known (codes_of builts.now) number }
{
    let mut left = builts;
    while let Some((first, rest)) = left.split_first() {
        if first.0 == number {
            return true;
        }
        left = rest;
    }
    false
}

/// The place of the first value that names a control variable which the program with this number doesn't have; None if
/// there is none. One of the programs must have the number.
pub fn first_bad(programs: &Programs, number: u32, values: &Fields) -> Option<u32>
    requires { is_known programs.now number ≡ true }
    ensures { result ≡ first_bad_pair (length (code_in programs.now number).controls) values.now }
{
    let code = code_of(programs, number).code();
    values.first_bad(code.controls().len())
}

/// The code of the first program with this number, which must be there.
pub(crate) fn code_of<'p>(programs: &'p Programs, number: u32) -> &'p Checked
    requires { is_known programs.now number ≡ true }
    ensures { result.now.code ≡ code_in programs.now number }
{
    code_among(programs.builts, number)
}

/// The code of the first of these programs with this number, which must be there.
fn code_among(builts: &[(u32, Built)], number: u32) -> &Checked
    requires known { is_known (codes_of builts.now) number ≡ true }
    ensures { result.now.code ≡ code_in (codes_of builts.now) number }
{
    let mut left = builts;
    while let Some((first, rest)) = left.split_first() {
        if first.0 == number {
            return &first.1.code;
        }
        left = rest;
    }
    unreachable!()
}

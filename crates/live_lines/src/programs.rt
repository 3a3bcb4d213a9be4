//! The fields of a program by its number.
ghost use Rattle.std.specs.Prelude.{◌≡◌};
ghost use Rattle.flow_core.specs.LiveText.{fields_at, sources_of};

use portus_core::Decl;
use reg_compiler::Built;

/// The fields of the first program with this number; none if there is no such program.
pub fn fields_of<'a>(programs: &'a [(u32, Built)], number: u32) -> &'a [Decl]
    ensures { result.now ≡ fields_at (sources_of programs.now) number }
{
    let mut left = programs;
    while let Some((program, rest)) = left.split_first() {
        if program.0 == number {
            return program.1.program.fields.as_slice();
        }
        left = rest;
    }
    &[]
}

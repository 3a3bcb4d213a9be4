//! An instruction on its way into code, with the place in the source of its fault.
ghost use Rattle.std.specs.Prelude.{◌≡◌};
ghost use Rattle.reg_compiler.specs.CompiledCode.{no_place, code_line, bind_line};

use ccp_base::{Place, Sequence};
use reg_code::{Instr, Op, Reg};

/// An instruction with the place of the source that it faults for.
#[derive(Clone, Copy)]
pub struct Line {
    pub instr: Instr,
    pub place: Place,
}

/// Instructions in order, each with its place.
pub type Lines = Sequence<Line>;

/// The place of an instruction that can't fault.
const NO_PLACE: Place = Place { line: 1, column: 1 };

/// An operation on two registers, with its place.
pub fn operation_line(op: Op, to: Reg, left: Reg, right: Reg, place: Place) -> Line
    ensures { result ≡ code_line op to left right place }
{
    Line {
        instr: Instr {
            op,
            to,
            left,
            right,
        },
        place,
    }
}

/// A register is given another one's value.
pub fn bind_line(to: Reg, from: Reg) -> Line
    ensures { result ≡ bind_line to from }
{
    operation_line(Op::Bind, to, from, Reg::Imm(0), NO_PLACE)
}

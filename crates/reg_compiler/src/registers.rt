//! The register of each name of a program.
ghost use Rattle.std.specs.Prelude.{◌≡◌, IsTrue};
ghost use Rattle.reg_compiler.specs.CompiledCode.{variable_reg};
ghost use Rattle.reg_compiler.specs.Numbered.{is_numbered};

use portus_core::Var;
use reg_code::{Implicit, Reg};

/// The register of a name.
pub fn reg_of(var: Var) -> Reg
    requires { IsTrue (is_numbered var) }
    ensures { result ≡ variable_reg var }
{
    match var {
        Var::Field(i) => Reg::Report(i as u8),
        Var::Control(i) => Reg::Control(i as u8),
        Var::Local(i) => Reg::Local(i as u8),
        Var::Cwnd => Reg::Implicit(Implicit::Cwnd),
        Var::Rate => Reg::Implicit(Implicit::Rate),
        Var::Micros => Reg::Implicit(Implicit::Micros),
        Var::Prim(n) => Reg::Prim(n as u8),
    }
}

//! The program of an input's text with its code, or the stop that refuses it.
ghost use Rattle.std.specs.Prelude.{◌≡◌, ◌≤◌, ◌∷◌, [], IfOk, IfErr, length};
ghost use Rattle.portus_core.specs.ProgramForm.{form_of};
ghost use Rattle.reg_compiler.specs.Counts.{lean};
ghost use Rattle.portus_build.specs.Texts.{IsBuiltFrom};
ghost use Rattle.ccp_run.specs.Check.{StopsProgram};

use ccp_base::NoMemory;
use portus_build::{BuildFault, build};
use reg_compiler::{Built, Builts};
use run_ending::{Refusal, Stop};
use std::alloc::Global;

/// The program that a text stands for, with its code.
pub fn program(alloc: Global, text: &[u8]) -> Result<Built, Stop>
    ensures found { IfOk result (λ built. IsBuiltFrom text.now (form_of built.program)) }
    ensures lean { IfOk result (λ built. length built.code.code.instrs ≤ lean (form_of built.program)) }
    ensures err { IfErr result (StopsProgram text.now) }
{
    match build(alloc, text) {
        Ok(built) => Ok(built),
        Err(BuildFault::NoMemory(error)) => Err(Stop::NoMemory(error)),
        Err(fault) => Err(Stop::Refused(Refusal::Program(fault))),
    }
}

/// One program, under the number 0.
pub fn numbered_zero(alloc: Global, built: Built) -> Result<Builts, NoMemory>
    ensures { IfOk result (λ programs. programs ≡ (0, built) ∷ []) }
{
    let mut programs = Builts::new(alloc);
    programs.push((0, built))?;
    Ok(programs)
}

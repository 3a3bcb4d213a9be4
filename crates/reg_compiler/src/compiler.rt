//! The call of the compiler: a program becomes code that simulates it, or is refused.
ghost use Rattle.std.specs.Prelude.{◌≡◌, ◌≢◌, ◌≤◌, IfOk, IfErr, Err, Some, None, length};
ghost use Rattle.ccp_base.specs.Outside.{no_memory};
ghost use Rattle.portus_core.specs.ProgramForm.{form_of};
ghost use Rattle.reg_compiler.specs.declared.fault.CompileFault.{CompileFault};
ghost use Rattle.reg_compiler.specs.declared.fault.CompileFault.TheVariants.{NoMemory};
ghost use Rattle.reg_compiler.specs.CompiledCode.{code_of, places_of};
ghost use Rattle.reg_compiler.specs.Counts.{form_count, lean};
ghost use Rattle.reg_compiler.specs.Refusal.{refusal_of};

use crate::built::Built;
use crate::count::instruction_count;
use crate::emission::{Emitted, emit};
use crate::fault::CompileFault;
use crate::need::too_deep_place;
use portus_core::Program;
use reg_code::{Checked, INSTRS};
use std::alloc::Global;

/// Compiles a program. The refusals are those of `CompileFault`; both are tested before anything is made.
pub fn compile(alloc: Global, program: Program) -> Result<Built, CompileFault>
    ensures program { IfOk result (λ built. built.program ≡ program) }
    ensures found { IfOk result (λ built. refusal_of (form_of program) ≡ None) }
    ensures refused { IfErr result (λ e. e ≢ NoMemory no_memory → refusal_of (form_of program) ≡ Some e) }
    ensures first { (e : CompileFault) → refusal_of (form_of program) ≡ Some e → result ≡ Err e }
    ensures code { IfOk result (λ built. built.code.code ≡ code_of (form_of program)) }
    ensures places { IfOk result (λ built. built.places ≡ places_of (form_of program)) }
    ensures within { IfOk result (λ built. length built.code.code.instrs ≤ form_count (form_of program)) }
    ensures lean { IfOk result (λ built. length built.code.code.instrs ≤ lean (form_of program)) }
{
    if let Some(place) = too_deep_place(&program) {
        return Err(CompileFault::TooDeep(place));
    }
    let count = instruction_count(&program);
    if count > INSTRS as u64 {
        return Err(CompileFault::CodeTooLong(count));
    }
    let Emitted { code, places } = emit(alloc, &program)?;
    Ok(Built {
        program,
        code: Checked::new(code),
        places,
    })
}

//! The build of a program's text: read, scoped and compiled, or the text's first refusal.
ghost use Rattle.std.specs.Prelude.{◌≡◌, ◌≢◌, ◌<◌, ◌≤◌, IfOk, IfErr, MatchResult, Err, Some, length};
ghost use Rattle.ccp_base.specs.Outside.{no_memory};
ghost use Rattle.ccp_base.specs.Limits.{most_text_bytes};
ghost use Rattle.ccp_base.specs.declared.place.Place.{Place};
ghost use Rattle.portus_core.specs.Programs.{Form};
ghost use Rattle.portus_core.specs.ProgramForm.{form_of};
ghost use Rattle.portus_lexer.specs.Strays.{stray_of};
ghost use Rattle.portus_parser.specs.declared.fault.ParseFault.TheVariants as reading;
ghost use Rattle.reg_compiler.specs.CompiledCode.{code_of, places_of};
ghost use Rattle.reg_compiler.specs.Counts.{form_count, lean};
ghost use Rattle.portus_build.specs.declared.fault.BuildFault.{BuildFault};
ghost use Rattle.portus_build.specs.declared.fault.BuildFault.TheVariants.{Parse, NoMemory};
ghost use Rattle.portus_build.specs.Outcomes.{RefusesAs};
ghost use Rattle.portus_build.specs.Texts.{IsNoProgram, IsBuiltFrom};
ghost use Rattle.portus_build.specs.Settled.{IsSettled};

use crate::fault::BuildFault;
use portus_parser::parse;
use reg_compiler::{Built, compile};
use scope_types::scope;
use std::alloc::Global;

/// Reads a text, finds what its names stand for, and compiles it. The refusals are those of `BuildFault`.
#[tactic(auto, using(crate::proofs::SettledTexts::settled_text))]
pub fn build(alloc: Global, text: &[u8]) -> Result<Built, BuildFault>
    // The answer's program is the one that the text stands for, and a text of a program that is compiled is built.
    ensures found { IfOk result (λ built. IsBuiltFrom text.now (form_of built.program)) }
    ensures only { (form : Form) → IsBuiltFrom text.now form
        → MatchResult result (λ built. form_of built.program ≡ form) (λ e. e ≡ NoMemory no_memory) }

    // Each refusal is the text's first one, and a text that has a first refusal is answered by it.
    ensures refused { IfErr result (λ e. e ≢ NoMemory no_memory → IsNoProgram text.now e) }
    ensures first { (refusal : BuildFault) → IsNoProgram text.now refusal → RefusesAs result refusal }

    // A text that is too long, or has a stray byte, is refused for it with or without memory.
    ensures long { most_text_bytes < length text.now → result ≡ Err (Parse reading.SourceTooLong) }
    ensures stray { (place : Place) → length text.now ≤ most_text_bytes → stray_of text.now ≡ Some place
        → result ≡ Err (Parse (reading.NotText place)) }

    // A text stands for one program that is compiled or has one first refusal, and not both.
    ensures settled { IsSettled text.now }

    // The code and its places are those of the definition, a function of the program.
    ensures code { IfOk result (λ built. built.code.code ≡ code_of (form_of built.program)) }
    ensures places { IfOk result (λ built. built.places ≡ places_of (form_of built.program)) }

    // The code is no longer than the count and the lean count of the program.
    ensures within { IfOk result (λ built. length built.code.code.instrs ≤ form_count (form_of built.program)) }
    ensures lean { IfOk result (λ built. length built.code.code.instrs ≤ lean (form_of built.program)) }
{
    let source = parse(alloc, text)?;
    let program = scope(alloc, source)?;
    Ok(compile(alloc, program)?)
}

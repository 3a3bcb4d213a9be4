//! The text of a checked program: how much it declares and needs, and the listing of its code.
ghost use Rattle.std.specs.Prelude.{◌≡◌, None, IfOk};
ghost use Rattle.portus_core.specs.ProgramForm.{form_of};
ghost use Rattle.reg_compiler.specs.Counts.{form_count};
ghost use Rattle.reg_compiler.specs.Needs.{form_need};
ghost use Rattle.reg_compiler.specs.Refusal.{refusal_of};
ghost use Rattle.campaign_report.specs.CheckText.{summary_line, check_text};

use ccp_base::{Bytes, NoMemory};
use portus_core::Program;
use reg_code::listing;
use reg_compiler::{Built, greatest_need, instruction_count};
use std::alloc::Global;

/// The text of a checked program: its summary, and the listing of its code.
pub fn check_text(alloc: Global, built: &Built) -> Result<Bytes, NoMemory>
    ensures { IfOk result (λ text. text ≡ check_text (form_of built.now.program) built.now.code.code) }
{
    let mut text = summary(alloc, &built.program)?;
    let listing = listing(alloc, built.code.code())?;
    text.extend(listing.as_slice())?;
    Ok(text)
}

/// How much a program declares, its greatest need of temporaries, and its count of instructions.
fn summary(alloc: Global, program: &Program) -> Result<Bytes, NoMemory>
    requires { refusal_of (form_of program.now) ≡ None }
    ensures { IfOk result (λ line. line ≡ summary_line (form_of program.now)) }
{
    let line = format!(in alloc;
        "ok blocks={} fields={} controls={} need={} count={}\n",
        program.blocks.len(),
        program.fields.len(),
        program.controls.len(),
        need(program),
        count(program)
    )?;
    let mut text = Bytes::new(alloc);
    text.extend(line.as_bytes())?;
    Ok(text)
}

// Two functions of their own, this and `count`: they prove that a compiled program is below the caps of `reg_compiler`.
/// The greatest number of temporaries that an expression of the program needs.
fn need(program: &Program) -> u32
    requires { refusal_of (form_of program.now) ≡ None }
    ensures { result ≡ form_need (form_of program.now) }
{
    greatest_need(program)
}

/// How many instructions the program counts.
fn count(program: &Program) -> u64
    requires { refusal_of (form_of program.now) ≡ None }
    ensures { result ≡ form_count (form_of program.now) }
{
    instruction_count(program)
}

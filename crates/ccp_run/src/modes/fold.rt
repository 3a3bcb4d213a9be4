//! The mode `fold`: a program over the acknowledgements below it, or the input's first refusal.
ghost use Rattle.std.specs.Prelude.{◌≡◌, ◌≤◌, ◌∷◌, [], IfOk, length};
ghost use Rattle.ccp_base.specs.Limits.{most_acks};
ghost use Rattle.portus_core.specs.ProgramForm.{form_of};
ghost use Rattle.fold_run.specs.Ran.{ran_of};
ghost use Rattle.ccp_run.specs.Attempts.{IsOutputOrRefusal};
ghost use Rattle.ccp_run.specs.Fold.{folded_text};
ghost use Rattle.ccp_run.specs.Modes.{Task};

use crate::program::{numbered_zero, program};
use campaign_report::fold_text;
use ccp_base::{Ack, Bytes, NoMemory, Sequence};
use ccp_words::Alone;
use fold_run::calls::fold_acks;
use fold_run::{LineFault, acknowledgements, separate};
use reg_compiler::Built;
use run_ending::{ModeOutput, Refusal, Stop};
use std::alloc::Global;

/// The fold that the bytes ask for, or the first refusal: of the separator, the program, the lines.
pub fn fold_output(alloc: Global, bytes: &[u8]) -> Result<ModeOutput, Stop>
    ensures { IsOutputOrRefusal (Task.Alone Alone.Fold) bytes.now result }
{
    let Some(cut) = separate(bytes) else {
        return Err(Stop::Refused(Refusal::NoSeparator));
    };
    let built = program(alloc, cut.program)?;
    match acknowledgements(alloc, cut.rest, cut.next) {
        Ok(acks) => Ok(run_fold(alloc, built, acks.as_slice())?),
        Err(LineFault::Line(number)) => {
            drop(built);
            Err(Stop::Refused(Refusal::Line(number)))
        }
        Err(LineFault::TooMany) => {
            drop(built);
            Err(Stop::Refused(Refusal::TooManyAcks))
        }
        Err(LineFault::NoMemory(error)) => {
            drop(built);
            Err(Stop::NoMemory(error))
        }
    }
}

/// The result of a program's fold over acknowledgements.
fn run_fold(alloc: Global, built: Built, acks: &[Ack]) -> Result<ModeOutput, NoMemory>
    requires { length acks.now ≤ most_acks }
    ensures text { IfOk result (λ output. output.text ≡ folded_text (form_of built.program) acks.now) }
    ensures books { IfOk result (λ output. output.books ≡ []) }
    ensures programs { IfOk result (λ output. output.programs ≡ (0, built) ∷ []) }
    ensures ran { IfOk result (λ output. output.ran ≡ ran_of built.code.code acks.now) }
{
    match shown(alloc, &built, acks) {
        Ok(told) => fold_made(alloc, told, built),
        Err(error) => {
            drop(built);
            Err(error)
        }
    }
}

/// What a fold shows: its text, and how many instructions the code ran.
#[derive(Drop)]
struct Told {
    text: Bytes,
    ran: u64,
}

/// What a program's fold over acknowledgements shows.
fn shown(alloc: Global, built: &Built, acks: &[Ack]) -> Result<Told, NoMemory>
    requires { length acks.now ≤ most_acks }
    ensures text { IfOk result (λ told. told.text ≡ folded_text (form_of built.now.program) acks.now) }
    ensures ran { IfOk result (λ told. told.ran ≡ ran_of built.now.code.code acks.now) }
{
    let folded = fold_acks(alloc, built, acks)?;
    let text = fold_text(alloc, built, &folded.reports, folded.fault, &folded.end)?;
    Ok(Told {
        text,
        ran: folded.ran,
    })
}

/// The output with that text and this program.
fn fold_made(alloc: Global, told: Told, built: Built) -> Result<ModeOutput, NoMemory>
    ensures text { IfOk result (λ output. output.text ≡ told.text) }
    ensures books { IfOk result (λ output. output.books ≡ []) }
    ensures programs { IfOk result (λ output. output.programs ≡ (0, built) ∷ []) }
    ensures ran { IfOk result (λ output. output.ran ≡ told.ran) }
{
    let programs = numbered_zero(alloc, built)?;
    Ok(ModeOutput {
        text: told.text,
        books: Sequence::new(alloc),
        programs,
        ran: told.ran,
    })
}

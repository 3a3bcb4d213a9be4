//! The run of a program's code over acknowledgements.
ghost use Rattle.std.specs.Prelude.{◌≡◌, ◌≤◌, ◌<◌, IfOk, length};
ghost use Rattle.ccp_base.specs.Limits.{most_acks};
ghost use Rattle.portus_core.specs.ProgramForm.{form_of};
ghost use Rattle.fold_run.specs.Fold.{TellsFault, fold_end, fold_reports};
ghost use Rattle.fold_run.specs.Folding.{HasEndNotice};
ghost use Rattle.fold_run.specs.Ran.{ran_of};

use crate::fold::fold;
use crate::folded::Folded;
use ccp_base::{Ack, NoMemory};
use fold_machine::Steps;
use reg_compiler::Built;
use std::alloc::Global;
use std::marker::Brand;
use std::sync::ledger::{Blank, Ledger};

/// A program's fold over acknowledgements, by running its code. It has one epoch of program 0, which begins with
/// the window, the rate and the time 0, and each acknowledgement finds room for a report.
pub fn fold_acks(alloc: Global, built: &Built, acks: &[Ack]) -> Result<Folded, NoMemory>
    requires { length acks.now ≤ most_acks }
    ensures reports { IfOk result (λ folded. folded.reports ≡ fold_reports (form_of built.now.program) acks.now) }
    ensures fault { IfOk result (λ folded. TellsFault built.now acks.now folded.fault) }
    ensures notice { IfOk result (HasEndNotice acks.now built.now.places) }
    ensures end { IfOk result (λ folded. folded.end ≡ fold_end (form_of built.now.program) acks.now) }
    ensures ran { IfOk result (λ folded. folded.ran ≡ ran_of built.now.code.code acks.now) }
{
    fold_with_counter::<Brand>(alloc, built, acks, Blank::new(1))
}

/// As `fold_acks`, with the ghost counter of steps that `Machine::ack` takes.
fn fold_with_counter<L: Ledger>(
    alloc: Global,
    built: &Built,
    acks: &[Ack],
    blank: Blank,
) -> Result<Folded, NoMemory>
    requires name { blank.name ≡ L.name }
    requires parts { blank.parts ≡ L.parts }
    requires some { 0 < blank.parts }
    requires acks { length acks.now ≤ most_acks }
    ensures reports { IfOk result (λ folded. folded.reports ≡ fold_reports (form_of built.now.program) acks.now) }
    ensures fault { IfOk result (λ folded. TellsFault built.now acks.now folded.fault) }
    ensures notice { IfOk result (HasEndNotice acks.now built.now.places) }
    ensures end { IfOk result (λ folded. folded.end ≡ fold_end (form_of built.now.program) acks.now) }
    ensures ran { IfOk result (λ folded. folded.ran ≡ ran_of built.now.code.code acks.now) }
{
    let mut steps = Steps::<L>::new(blank);
    let folding = fold(alloc, built, acks, &mut steps)?;
    let end = folding.end();
    Ok(Folded {
        reports: folding.reports,
        fault: folding.fault,
        end,
        ran: folding.ran,
    })
}

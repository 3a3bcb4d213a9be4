//! The fold of a program over a list of acknowledgements, run by its code.
ghost use Rattle.std.specs.Prelude.{◌≡◌, ◌≤◌, IfOk, length};
ghost use Rattle.ccp_base.specs.Limits.{most_acks};
ghost use Rattle.portus_core.specs.ProgramForm.{form_of};
ghost use Rattle.fold_run.specs.Fold.{TellsFault, fold_reports, fold_track};
ghost use Rattle.fold_run.specs.Folding.{folding_track, IsFoldOf, HasNotice};
ghost use Rattle.fold_run.specs.Ran.{ran_of};

use crate::folding::Folding;
use ccp_base::{Ack, NoMemory};
use fold_machine::Steps;
use reg_compiler::Built;
use std::alloc::Global;
use std::sync::ledger::Ledger;

/// A program's fold over acknowledgements, from its beginning.
pub fn fold<L: Ledger>(
    alloc: Global,
    built: &Built,
    acks: &[Ack],
    steps: &mut Steps<L>,
) -> Result<Folding, NoMemory>
    requires { length acks.now ≤ most_acks }
    ensures track { IfOk result (λ folding. folding_track folding ≡ fold_track (form_of built.now.program) acks.now) }
    ensures ran { IfOk result (λ folding. folding.ran ≡ ran_of built.now.code.code acks.now) }
    ensures reports { IfOk result (λ folding. folding.reports ≡ fold_reports (form_of built.now.program) acks.now) }
    ensures fault { IfOk result (λ folding. TellsFault built.now acks.now folding.fault) }
    ensures notice { IfOk result (HasNotice acks.now built.now.places) }
    ensures fold { IfOk result (IsFoldOf built.now.code.code) }
{
    let mut folding = Folding::begin(alloc, built)?;
    let mut left = acks;
    while let Some((ack, rest)) = left.split_first() {
        folding.ack(built, ack, steps)?;
        left = rest;
    }
    Ok(folding)
}

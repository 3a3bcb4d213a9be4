//! The mode `check`: the summary and the listing of a program, or its refusal.
ghost use Rattle.std.specs.Prelude.{◌≡◌};
ghost use Rattle.ccp_run.specs.Attempts.{IsOutputOrRefusal};
ghost use Rattle.ccp_run.specs.Modes.{Task};

use crate::program::{numbered_zero, program};
use campaign_report::check_text;
use ccp_words::Alone;
use run_ending::{ModeOutput, Stop};
use std::alloc::Global;

/// The summary and the listing of the program that the bytes stand for, or its refusal.
pub fn check_output(alloc: Global, bytes: &[u8]) -> Result<ModeOutput, Stop>
    ensures { IsOutputOrRefusal (Task.Alone Alone.Check) bytes.now result }
{
    let built = program(alloc, bytes)?;
    let text = check_text(alloc, &built)?;
    let programs = numbered_zero(alloc, built)?;
    Ok(ModeOutput::with_programs(alloc, text, programs))
}

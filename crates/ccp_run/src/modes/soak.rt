//! The mode `soak`: the generated cases of a number, run and summed up.
ghost use Rattle.std.specs.Prelude.{◌≡◌, ◌≤◌, IfOk};
ghost use Rattle.run_ending.specs.Streams.{StreamChange, IsUntouched};
ghost use Rattle.ccp_run.specs.Attempts.{IsAttempt};
ghost use Rattle.ccp_run.specs.Soak.{IsSoakOutput};
ghost use Rattle.ccp_run.specs.Modes.{Task};

use campaign_gate::calls::rows;
use campaign_report::soak_text;
use ccp_base::{Gate, NoMemory, Workers};
use run_ending::{ModeOutput, Stop};
use scenario_json::calls::soak;
use std::alloc::Global;
use std::sync::Wait;
use std::thread::Threads;

/// Runs the generated cases of this number, and sums them up. It reads nothing.
pub fn soak_output<R: Threads + Wait + Sync, G: Gate + Sync>(
    rt: &R,
    alloc: Global,
    workers: Workers,
    number: u32,
    gate: &G,
) -> Result<ModeOutput, Stop>
    ensures { (source : StreamChange) → IsUntouched source → IsAttempt (Task.Soak number) source result }
{
    Ok(run_soak(rt, alloc, workers, number, gate)?)
}

fn run_soak<R: Threads + Wait + Sync, G: Gate + Sync>(
    rt: &R,
    alloc: Global,
    workers: Workers,
    number: u32,
    gate: &G,
) -> Result<ModeOutput, NoMemory>
    ensures { IfOk result (IsSoakOutput number) }
{
    let scene = soak(alloc, number)?;
    let rows = rows(rt, alloc, scene.cases, workers, gate)?;
    let text = soak_text(alloc, number, &rows)?;
    Ok(ModeOutput::with_programs(alloc, text, scene.programs))
}

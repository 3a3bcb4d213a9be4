//! The mode `rollout`: a scenario's cases on datapath workers and installers, as the text of what happened.
ghost use Rattle.std.specs.Prelude.{◌≤◌, IfOk, IfErr, length};
ghost use Rattle.ccp_base.specs.Limits.{most_flows};
ghost use Rattle.scene_members.specs.OpenCases.{AreOpenFlowsFrom};
ghost use Rattle.ccp_run.specs.Attempts.{IsOutputOrRefusal};
ghost use Rattle.ccp_run.specs.Rollout.{IsRolloutScenario, StopsRollout, TellsRollout};
ghost use Rattle.ccp_run.specs.Modes.{Task};

use ccp_base::{Gate, NoMemory, Workers};
use live_install::{rollout, rollout_text};
use run_ending::{ModeOutput, Stop};
use scenario_json::OpenCases;
use scenario_json::calls::rollout_scene;
use std::alloc::Global;
use std::sync::Wait;
use std::thread::Threads;

/// The text of the scenario that the bytes stand for, or its refusal.
pub fn rollout_output<R: Threads + Wait + Sync, G: Gate + Sync>(
    rt: &R,
    alloc: Global,
    datapaths: Workers,
    agents: Workers,
    bytes: &[u8],
    gate: &G,
) -> Result<ModeOutput, Stop>
    ensures { IsOutputOrRefusal Task.Rollout bytes.now result }
{
    let cases = open_cases(alloc, bytes)?;
    Ok(run_rollout(rt, alloc, cases, datapaths, agents, gate)?)
}

// A function of its own: the lemma about a fault of a scenario is searched with here, and not in the caller.
/// The cases that the bytes stand for.
#[tactic(auto, using(crate::proofs::ScenarioInputs::scene_stops))]
fn open_cases(alloc: Global, bytes: &[u8]) -> Result<OpenCases, Stop>
    ensures found { IfOk result (λ cases. IsRolloutScenario bytes.now cases) }
    ensures few { IfOk result (λ cases. length cases ≤ most_flows) }
    ensures err { IfErr result (StopsRollout bytes.now) }
{
    Ok(rollout_scene(alloc, bytes)?)
}

/// The output for these cases.
fn run_rollout<R: Threads + Wait + Sync, G: Gate + Sync>(
    rt: &R,
    alloc: Global,
    cases: OpenCases,
    datapaths: Workers,
    agents: Workers,
    gate: &G,
) -> Result<ModeOutput, NoMemory>
    requires few { length cases ≤ most_flows }
    requires numbered { AreOpenFlowsFrom 0 cases }
    ensures { IfOk result (λ output. TellsRollout cases output) }
{
    let books = rollout(rt, alloc, cases, datapaths, agents, gate)?;
    let text = rollout_text(alloc, &books)?;
    Ok(ModeOutput::text(alloc, text))
}

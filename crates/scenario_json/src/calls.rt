//! The public calls: scenarios of live runs, campaigns, rollouts, shared links and flows whose agent is outside, and
//! the generated one.
ghost use Rattle.std.specs.Prelude.{◌≡◌, ◌≢◌, ◌≤◌, IfOk, IfErr, Ok, Err, length, map};
ghost use Rattle.std.specs.List.{All};
ghost use Rattle.ccp_base.specs.Outside.{no_memory};
ghost use Rattle.serde_json.specs.View.{view};
ghost use Rattle.ccp_base.specs.Chaining.{then_do};
ghost use Rattle.ccp_base.specs.Limits.{most_flows, most_queue, most_quantum_us, most_rounds};
ghost use Rattle.portus_build.specs.TextWalk.{WalksAreExact};
ghost use Rattle.scene_members.specs.OpenCases.{open_plan_of, AreOpenFlowsFrom};
ghost use Rattle.scene_members.specs.Plans.{IsPlan};
ghost use Rattle.scene_members.specs.SharedMembers.{shares_in};
ghost use Rattle.scene_members.specs.Traces.{table_of};
ghost use Rattle.scene_members.specs.Whole.{most_cases_of};
ghost use Rattle.scene_members.specs.declared.mode.SceneMode.TheVariants as modes;
ghost use Rattle.scene_core.specs.CasePlans.{plan_of, AreFlowsFrom, flow_link_of, link_at_once};
ghost use Rattle.scene_core.specs.CompiledPrograms.{AreCompiled};
ghost use Rattle.scene_faults.specs.MemberFaults.{in_scene};
ghost use Rattle.scene_faults.specs.declared.fault.SceneFault.TheVariants as fault;
ghost use Rattle.scenario_json.specs.Cases.{case_names, IsCoded, AreNumberedFrom};
ghost use Rattle.scenario_json.specs.ParsedScenes.{parts_said};
ghost use Rattle.scenario_json.specs.Rollout.{rollout_of};
ghost use Rattle.scenario_json.specs.Scene.{scene_with, scene_of, parts_in};
ghost use Rattle.reg_compiler.specs.Sources.{sources_of};
ghost use Rattle.scenario_json.specs.SharedScenes.{shared_with, shared_of, shared_scene_of};
ghost use Rattle.scenario_json.specs.Soak.{gen};

use crate::draws::plans;
use crate::flow_links::flow_links;
use crate::parsed_scene::{ParsedScene, parsed_scene};
use crate::scenario::put_together;
use crate::scene_programs::{SceneProgramList, built_ins};
use ccp_base::NoMemory;
use scene_core::{Scenario, SharedScene};
use scene_faults::SceneFault;
use scene_members::{OpenCases, SceneMode, Shares, open_plans_in, shares_in, value_in};
use serde_json::Value;
use shared_link::SharedCase;
use std::alloc::Global;

/// Reads a scenario: a JSON object with its programs, traces and cases. When a flow starts is no part of the answer. The
/// case of a flow whose agent is outside has Reno and its built-in programs, since a case has an agent; the flow never
/// asks it. The refusals are those of `SceneFault`, the first one in the order of the scenario's parts.
pub fn scenario(alloc: Global, text: &[u8], mode: SceneMode) -> Result<Scenario, SceneFault>
    // The result of each program's text, a program or its first refusal, is what the walks over it find.
    ensures readable { WalksAreExact }

    // The answer is the scene of the text, and each refusal the text's first one.
    ensures found { IfOk result (λ s.
        scene_of mode text.now ≡ Ok (scene_with (sources_of s.programs) (map plan_of s.cases))) }
    ensures refused { IfErr result (λ e. e ≢ fault.NoMemory no_memory → scene_of mode text.now ≡ Err e) }

    // The programs' numbers are their places, from 0 on.
    ensures numbered { IfOk result (λ s. AreNumberedFrom 0 s.programs) }

    // Each program has the code that the compiler makes of it, with the places of its instructions.
    ensures compiled { IfOk result (λ s. AreCompiled s.programs) }

    // Each case has the codes of its programs, and an agent in its initial state; case i is flow i.
    ensures coded { IfOk result (λ s. All (IsCoded s.programs) s.cases) }
    ensures flows { IfOk result (λ s. AreFlowsFrom 0 s.cases) }
    ensures names { IfOk result (λ s. s.names ≡ case_names s.cases) }
    ensures few { IfOk result (λ s. length s.cases ≤ most_cases_of mode) }
{
    let ParsedScene {
        programs,
        traces: _,
        plans,
    } = {
        let whole = value_in(alloc, text)?;
        parsed_scene(alloc, mode, &whole)?
    };
    let SceneProgramList { names: _, builts } = programs;
    Ok(put_together(alloc, builts, plans)?)
}

/// Generates the scenario of a number: 64 cases of the built-in programs, by draws from the number.
pub fn soak(alloc: Global, number: u32) -> Result<Scenario, NoMemory>
    ensures found { IfOk result (λ s.
        scene_with (sources_of s.programs) (map plan_of s.cases) ≡ gen number) }
    ensures numbered { IfOk result (λ s. AreNumberedFrom 0 s.programs) }
    ensures coded { IfOk result (λ s. All (IsCoded s.programs) s.cases) }
    ensures flows { IfOk result (λ s. AreFlowsFrom 0 s.cases) }
    ensures names { IfOk result (λ s. s.names ≡ case_names s.cases) }
    ensures count { IfOk result (λ s. length s.cases ≡ most_flows) }
{
    let programs = built_ins(alloc)?;
    put_together(alloc, programs, plans(alloc, number)?)
}

/// Reads the scenario of a rollout: as `scenario` in a live run, but that the texts of programs aren't built, and that
/// a case has a first window and the names of its steps in place of an agent. The cases are those of the flows from 0
/// on.
pub fn rollout_scene(alloc: Global, text: &[u8]) -> Result<OpenCases, SceneFault>
    // The answer is what the text says, and each refusal the text's first one.
    ensures found { IfOk result (λ cases. rollout_of text.now ≡ Ok (map open_plan_of cases)) }
    ensures refused { IfErr result (λ e. e ≢ fault.NoMemory no_memory → rollout_of text.now ≡ Err e) }

    // Case i is flow i.
    ensures flows { IfOk result (λ cases. AreOpenFlowsFrom 0 cases) }
    ensures few { IfOk result (λ cases. length cases ≤ most_flows) }
{
    let whole = value_in(alloc, text)?;
    Ok(open_plans_in(alloc, &whole)?)
}

/// What a value says of flows that share one link.
fn shared_parts(alloc: Global, whole: &Value) -> Result<(ParsedScene, Shares), SceneFault>
    ensures parsed { IfOk result (λ both. parts_in modes.Shared (view whole.now) ≡ Ok (parts_said both.0)) }
    ensures shares { IfOk result (λ both. shares_in (table_of both.0.traces.entries) (view whole.now) ≡ Ok both.1) }
    ensures numbered { IfOk result (λ both. AreNumberedFrom 0 both.0.programs.builts) }
    ensures within { IfOk result (λ both. All (IsPlan (length both.0.programs.builts)) both.0.plans) }
    ensures count { IfOk result (λ both. length both.0.plans ≤ most_flows) }
    ensures queue { IfOk result (λ both. (1 ≤ both.1.queue) × (both.1.queue ≤ most_queue)) }
    ensures quantum_us { IfOk result (λ both. (1 ≤ both.1.quantum_us) × (both.1.quantum_us ≤ most_quantum_us)) }
    ensures rounds { IfOk result (λ both. (1 ≤ both.1.rounds) × (both.1.rounds ≤ most_rounds)) }
    ensures err { IfErr result (λ e. e ≢ fault.NoMemory no_memory
        → then_do (parts_in modes.Shared (view whole.now)) (λ parts.
        then_do (in_scene (shares_in parts.traces (view whole.now))) (λ shares. Ok (shared_of parts shares))) ≡ Err e) }
{
    let parsed = parsed_scene(alloc, SceneMode::Shared, whole)?;
    let shares = shares_in(alloc, &parsed.traces, whole)?;
    Ok((parsed, shares))
}

/// Reads the scenario of flows that share one link: that of a live run with the member `shared`, in which each case may
/// say when its flow starts. The link has one flow for each case, in order. The refusals of a live run come first, then
/// those of `shared`.
pub fn shared_scene(alloc: Global, text: &[u8]) -> Result<SharedScene, SceneFault>
    // The answer is the scene of the text with its link, and each refusal the text's first one.
    ensures found { IfOk result (λ s. shared_scene_of text.now
        ≡ Ok (shared_with (scene_with (sources_of s.scene.programs) (map plan_of s.scene.cases)) s.link s.rounds)) }
    ensures refused { IfErr result (λ e. e ≢ fault.NoMemory no_memory → shared_scene_of text.now ≡ Err e) }

    // The programs' numbers are their places, from 0 on.
    ensures numbered { IfOk result (λ s. AreNumberedFrom 0 s.scene.programs) }

    // Each case has the codes of its programs, and an agent in its initial state; case i is flow i.
    ensures coded { IfOk result (λ s. All (IsCoded s.scene.programs) s.scene.cases) }
    ensures flows { IfOk result (λ s. AreFlowsFrom 0 s.scene.cases) }
    ensures names { IfOk result (λ s. s.scene.names ≡ case_names s.scene.cases) }
    ensures few { IfOk result (λ s. length s.scene.cases ≤ most_flows) }

    // The link has what each case has of its own, in order, with the start of its flow, and is within its limits.
    ensures links { IfOk result (λ s.
        map link_at_once s.link.flows ≡ map flow_link_of (map plan_of s.scene.cases)) }
    ensures queue { IfOk result (λ s. (1 ≤ s.link.queue) × (s.link.queue ≤ most_queue)) }
    ensures quantum_us { IfOk result (λ s. (1 ≤ s.link.quantum_us) × (s.link.quantum_us ≤ most_quantum_us)) }
    ensures rounds { IfOk result (λ s. (1 ≤ s.rounds) × (s.rounds ≤ most_rounds)) }
{
    let (parsed, shares) = {
        let whole = value_in(alloc, text)?;
        shared_parts(alloc, &whole)?
    };
    let ParsedScene {
        programs,
        traces: _,
        plans,
    } = parsed;
    let SceneProgramList { names: _, builts } = programs;
    let flows = flow_links(alloc, plans.as_slice())?;
    let scene = put_together(alloc, builts, plans)?;
    let link = SharedCase {
        trace: shares.trace,
        queue: shares.queue,
        quantum_us: shares.quantum_us,
        flows,
    };
    Ok(SharedScene {
        scene,
        link,
        rounds: shares.rounds,
    })
}

//! How a scenario's whole text is parsed: its programs, its traces and its cases.
ghost use Rattle.std.specs.Prelude.{◌≡◌, ◌≤◌, ◌+◌, IfOk, Some, None, Ok, length};
ghost use Rattle.std.specs.List.{All};
ghost use Rattle.serde_json.specs.View.{view};
ghost use Rattle.ccp_base.specs.Limits.{most_named_programs};
ghost use Rattle.agent_core.specs.Kinds.{built_in_count};
ghost use Rattle.scene_members.specs.Plans.{IsPlan};
ghost use Rattle.scene_members.specs.Values.{member_of};
ghost use Rattle.scene_members.specs.Whole.{most_cases_of};
ghost use Rattle.scene_members.specs.declared.key.Key.TheVariants as key;
ghost use Rattle.scene_core.specs.CompiledPrograms.{AreCompiled};
ghost use Rattle.scenario_json.specs.Cases.{AreNumberedFrom};
ghost use Rattle.scenario_json.specs.ParsedScenes.{parts_said, programs_said};
ghost use Rattle.scenario_json.specs.Scene.{parts_in};
ghost use Rattle.scenario_json.specs.ScenePrograms.{all_programs};
ghost use Rattle.scenario_json.specs.Readers.{Gives};

use crate::scene_programs::{SceneProgramList, built_ins, programs_in};
use ccp_base::{NoMemory, Sequence};
use scene_faults::SceneFault;
use scene_members::{
    Key, Plans, SceneMode, Traces, cases_in, member, named_members, opening, traces_in,
};
use serde_json::Value;
use std::alloc::Global;

/// What a scenario says, before its cases are put together.
#[derive(Drop)]
pub(crate) struct ParsedScene {
    pub programs: SceneProgramList,
    pub traces: Traces,
    pub plans: Plans,
}

/// The programs of a scenario that names none.
fn unnamed_programs(alloc: Global) -> Result<SceneProgramList, NoMemory>
    ensures ok { IfOk result (λ p. all_programs None ≡ Ok (programs_said p)) }
    ensures numbered { IfOk result (λ p. AreNumberedFrom 0 p.builts) }
    ensures compiled { IfOk result (λ p. AreCompiled p.builts) }
    ensures count { IfOk result (λ p. length p.builts ≡ length p.names + built_in_count) }
    ensures few { IfOk result (λ p. length p.names ≤ most_named_programs) }
{
    let builts = built_ins(alloc)?;
    Ok(SceneProgramList {
        names: Sequence::new(alloc),
        builts,
    })
}

/// The programs of a scenario whose member `programs` is this.
fn named_programs(alloc: Global, value: &Value) -> Result<SceneProgramList, SceneFault>
    ensures walk { Gives programs_said result (all_programs (Some (view value.now))) }
    ensures numbered { IfOk result (λ p. AreNumberedFrom 0 p.builts) }
    ensures compiled { IfOk result (λ p. AreCompiled p.builts) }
    ensures count { IfOk result (λ p. length p.builts ≡ length p.names + built_in_count) }
    ensures few { IfOk result (λ p. length p.names ≤ most_named_programs) }
{
    let members = named_members(alloc, value)?;
    programs_in(alloc, members)
}

/// All programs of a scenario.
fn all_programs(alloc: Global, whole: &Value) -> Result<SceneProgramList, SceneFault>
    ensures walk { Gives programs_said result (all_programs (member_of key.Programs (view whole.now))) }
    ensures numbered { IfOk result (λ p. AreNumberedFrom 0 p.builts) }
    ensures compiled { IfOk result (λ p. AreCompiled p.builts) }
    ensures count { IfOk result (λ p. length p.builts ≡ length p.names + built_in_count) }
    ensures few { IfOk result (λ p. length p.names ≤ most_named_programs) }
{
    match member(whole, Key::Programs) {
        Some(value) => named_programs(alloc, value),
        None => Ok(unnamed_programs(alloc)?),
    }
}

/// What a value says.
pub(crate) fn parsed_scene(
    alloc: Global,
    mode: SceneMode,
    whole: &Value,
) -> Result<ParsedScene, SceneFault>
    ensures walk { Gives parts_said result (parts_in mode (view whole.now)) }
    ensures numbered { IfOk result (λ d. AreNumberedFrom 0 d.programs.builts) }
    ensures compiled { IfOk result (λ d. AreCompiled d.programs.builts) }
    ensures within { IfOk result (λ d. All (IsPlan (length d.programs.builts)) d.plans) }
    ensures count { IfOk result (λ d. length d.plans ≤ most_cases_of mode) }
{
    opening(alloc, whole)?;
    let programs = all_programs(alloc, whole)?;
    let traces = traces_in(alloc, whole)?;
    let plans = cases_in(alloc, mode, programs.names.as_slice(), &traces, whole)?;
    Ok(ParsedScene {
        programs,
        traces,
        plans,
    })
}

//! How a scenario's cases are read: name, agent, trace, and the other members of each.
ghost use Rattle.std.specs.Prelude.{◌≡◌, ◌≤◌, ◌+◌, IfOk, length};
ghost use Rattle.std.specs.List.{All};
ghost use Rattle.serde_json.specs.View.{view};
ghost use Rattle.ccp_base.specs.Limits.{most_named_programs};
ghost use Rattle.agent_core.specs.Kinds.{built_in_count};
ghost use Rattle.scene_members.specs.CaseWalk.{case_name, case_kind, trace_in, case_trace, case_members};
ghost use Rattle.scene_members.specs.CaseWalk.{plan_in};
ghost use Rattle.scene_members.specs.CaseLists.{plans_in};
ghost use Rattle.scene_members.specs.Traces.{table_of};
ghost use Rattle.scene_members.specs.Plans.{IsPlan, IsStart};
ghost use Rattle.scene_members.specs.Readers.{Gives};

use crate::case_losses::loss_plan;
use crate::case_numbers::{agent_numbers, case_start, link_numbers};
use crate::case_programs::programs;
use crate::fault::MemberFault;
use crate::json_place::JsonPlace;
use crate::key::Key;
use crate::mode::SceneMode;
use crate::names::name;
use crate::plan::{Plan, Plans};
use crate::traces::{Traces, trace_named};
use crate::values::{needed_member, object, text};
use agent_core::Kind;
use ccp_base::{Name, Sequence};
use link_model::Trace;
use serde_json::Value;
use std::alloc::Global;

pub(crate) fn case_name(alloc: Global, i: usize, whole: &Value) -> Result<Name, MemberFault>
    ensures { Gives (λ n. n) result (case_name i (view whole.now)) }
{
    let place = JsonPlace::In(i, Key::Name);
    let value = needed_member(alloc, place, whole, Key::Name)?;
    name(alloc, place, value)
}

/// The agent of a case; that of a flow whose agent is outside is Reno, whatever the member is.
fn case_kind(alloc: Global, mode: SceneMode, i: usize, whole: &Value) -> Result<Kind, MemberFault>
    ensures { Gives (λ k. k) result (case_kind mode i (view whole.now)) }
{
    // A plan has an agent; a driven flow never asks it.
    if let SceneMode::Driven = mode {
        return Ok(Kind::Reno);
    }
    let place = JsonPlace::In(i, Key::Agent);
    let value = needed_member(alloc, place, whole, Key::Agent)?;
    let text = text(alloc, place, value)?;
    match Kind::from_name(text.as_bytes()) {
        Some(kind) => Ok(kind),
        None => Err(place.wrong_fault(alloc)),
    }
}

/// A copy of the trace that a value names.
pub(crate) fn trace_in(
    alloc: Global,
    place: JsonPlace,
    traces: &Traces,
    value: &Value,
) -> Result<Trace, MemberFault>
    ensures { Gives (λ t. t) result (trace_in place (table_of traces.now.entries) (view value.now)) }
{
    let name = text(alloc, place, value)?;
    match trace_named(traces, name) {
        Some(trace) => Ok(trace.copy(alloc)?),
        None => Err(place.wrong_fault(alloc)),
    }
}

pub(crate) fn case_trace(
    alloc: Global,
    traces: &Traces,
    i: usize,
    whole: &Value,
) -> Result<Trace, MemberFault>
    ensures { Gives (λ t. t) result (case_trace (table_of traces.now.entries) i (view whole.now)) }
{
    let place = JsonPlace::In(i, Key::Trace);
    let value = needed_member(alloc, place, whole, Key::Trace)?;
    trace_in(alloc, place, traces, value)
}

/// What the members of a case say.
fn members(
    alloc: Global,
    mode: SceneMode,
    names: &[Name],
    traces: &Traces,
    i: usize,
    whole: &Value,
) -> Result<Plan, MemberFault>
    requires { length names.now ≤ most_named_programs }
    ensures walk { Gives (λ p. p) result
        (case_members mode names.now (table_of traces.now.entries) i (view whole.now)) }
    ensures within { IfOk result (λ p. IsPlan (length names.now + built_in_count) p) }
    ensures start { IfOk result (λ p. IsStart mode p.start_us) }
{
    let name = case_name(alloc, i, whole)?;
    let kind = case_kind(alloc, mode, i, whole)?;
    let trace = case_trace(alloc, traces, i, whole)?;
    let link_numbers = link_numbers(alloc, i, whole)?;
    let agent_numbers = agent_numbers(alloc, i, whole)?;
    let loss_plan = loss_plan(alloc, i, whole)?;
    let start_us = case_start(alloc, mode, i, whole)?;
    let programs = programs(alloc, mode, names, kind, i, whole)?;
    Ok(Plan {
        name,
        kind,
        trace,
        link_numbers,
        agent_numbers,
        loss_plan,
        start_us,
        programs,
    })
}

fn case_in(
    alloc: Global,
    mode: SceneMode,
    names: &[Name],
    traces: &Traces,
    i: usize,
    whole: &Value,
) -> Result<Plan, MemberFault>
    requires { length names.now ≤ most_named_programs }
    ensures walk { Gives (λ p. p) result (plan_in mode names.now (table_of traces.now.entries) i (view whole.now)) }
    ensures within { IfOk result (λ p. IsPlan (length names.now + built_in_count) p) }
    ensures start { IfOk result (λ p. IsStart mode p.start_us) }
{
    object(alloc, JsonPlace::Case(i), whole)?;
    members(alloc, mode, names, traces, i, whole)
}

/// What cases say, in order.
#[tactic(auto, using(crate::proofs::ListLemmas::all_pushed))]
pub(crate) fn cases_from(
    alloc: Global,
    mode: SceneMode,
    names: &[Name],
    traces: &Traces,
    values: &[Value],
) -> Result<Plans, MemberFault>
    requires { length names.now ≤ most_named_programs }
    ensures walk { Gives (λ ps. ps) result (plans_in mode names.now traces.now.entries values.now) }
    ensures within { IfOk result (λ ps. All (IsPlan (length names.now + built_in_count)) ps) }
    ensures starts { IfOk result (λ ps. All (λ p. IsStart mode p.start_us) ps) }
    ensures count { IfOk result (λ ps. length ps ≡ length values.now) }
{
    let mut plans = Sequence::new(alloc);
    let mut rest = values;
    while let Some((value, later)) = rest.split_first() {
        plans.push(case_in(alloc, mode, names, traces, plans.len(), value)?)?;
        rest = later;
    }
    Ok(plans)
}

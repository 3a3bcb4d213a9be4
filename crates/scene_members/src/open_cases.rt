//! How a rollout's cases are read, within their limits.
ghost use Rattle.std.specs.Prelude.{◌≡◌, ◌≢◌, ◌≤◌, IfOk, IfErr, Ok, Err, length, map};
ghost use Rattle.ccp_base.specs.Outside.{no_memory};
ghost use Rattle.serde_json.specs.View.{view};
ghost use Rattle.ccp_base.specs.Limits.{most_flows};
ghost use Rattle.scene_members.specs.Traces.{table_of};
ghost use Rattle.scene_members.specs.Rollout.{open_members, open_case_in, open_cases_in, open_acks_of};
ghost use Rattle.scene_members.specs.Rollout.{within_open_total, open_plans_in};
ghost use Rattle.scene_members.specs.OpenCases.{open_plan_of, AreOpenFlowsFrom, texts_of};
ghost use Rattle.scene_members.specs.CaseLists.{open_plans};
ghost use Rattle.scene_members.specs.Readers.{Gives};
ghost use Rattle.scene_members.specs.declared.fault.MemberFault.TheVariants as fault;

use crate::case::{case_name, case_trace};
use crate::case_losses::loss_plan;
use crate::case_numbers::{case_number, link_numbers};
use crate::fault::MemberFault;
use crate::json_place::JsonPlace;
use crate::key::Key;
use crate::mode::SceneMode;
use crate::open_case::{OpenCase, OpenCases};
use crate::open_steps::case_steps;
use crate::open_texts::{OpenText, texts_in};
use crate::traces::{Traces, traces_in};
use crate::values::{list, needed_member, object};
use crate::whole::{ACKS_IN_ALL, few_items, opening};
use ccp_base::Sequence;
use link_model::LinkCase;
use serde_json::Value;
use std::alloc::Global;

/// The case that the members of a case say.
fn open_members(
    alloc: Global,
    texts: &[OpenText],
    traces: &Traces,
    i: usize,
    whole: &Value,
) -> Result<OpenCase, MemberFault>
    requires { i ≤ most_flows }
    ensures walk { Gives open_plan_of result
        (open_members (texts_of texts.now) (table_of traces.now.entries) i (view whole.now)) }
    ensures flow { IfOk result (λ c. c.flow ≡ i) }
{
    let name = case_name(alloc, i, whole)?;
    let trace = case_trace(alloc, traces, i, whole)?;
    let link_numbers = link_numbers(alloc, i, whole)?;
    let loss_plan = loss_plan(alloc, i, whole)?;
    let cwnd = case_number(alloc, i, Key::Cwnd, whole)?;
    let steps = case_steps(alloc, texts, i, whole)?;
    let link = LinkCase {
        trace,
        mss: link_numbers.mss,
        queue: link_numbers.queue,
        delay_us: link_numbers.delay_us,
        timeout_us: link_numbers.timeout_us,
        losses: loss_plan.losses,
        mark: loss_plan.mark,
    };
    Ok(OpenCase {
        flow: i as u32,
        name,
        link,
        acks: link_numbers.acks,
        cwnd,
        steps,
    })
}

fn open_case_in(
    alloc: Global,
    texts: &[OpenText],
    traces: &Traces,
    i: usize,
    whole: &Value,
) -> Result<OpenCase, MemberFault>
    requires { i ≤ most_flows }
    ensures walk { Gives open_plan_of result
        (open_case_in (texts_of texts.now) (table_of traces.now.entries) i (view whole.now)) }
    ensures flow { IfOk result (λ c. c.flow ≡ i) }
{
    object(alloc, JsonPlace::Case(i), whole)?;
    open_members(alloc, texts, traces, i, whole)
}

/// The cases, in order.
fn open_cases_from(
    alloc: Global,
    texts: &[OpenText],
    traces: &Traces,
    values: &[Value],
) -> Result<OpenCases, MemberFault>
    requires { length values.now ≤ most_flows }
    ensures walk { Gives (λ cs. map open_plan_of cs) result (open_plans texts.now traces.now.entries values.now) }
    ensures flows { IfOk result (λ cs. AreOpenFlowsFrom 0 cs) }
    ensures count { IfOk result (λ cs. length cs ≡ length values.now) }
{
    let mut cases = Sequence::new(alloc);
    let mut rest = values;
    while let Some((value, later)) = rest.split_first() {
        cases.push(open_case_in(alloc, texts, traces, cases.len(), value)?)?;
        rest = later;
    }
    Ok(cases)
}

/// The cases of a scenario.
fn open_cases_in(
    alloc: Global,
    texts: &[OpenText],
    traces: &Traces,
    whole: &Value,
) -> Result<OpenCases, MemberFault>
    ensures walk { Gives (λ cs. map open_plan_of cs) result
        (open_cases_in (texts_of texts.now) (table_of traces.now.entries) (view whole.now)) }
    ensures flows { IfOk result (λ cs. AreOpenFlowsFrom 0 cs) }
    ensures count { IfOk result (λ cs. length cs ≤ most_flows) }
{
    let place = JsonPlace::Top(Key::Cases);
    let value = needed_member(alloc, place, whole, Key::Cases)?;
    let items = list(alloc, place, value)?;
    few_items(alloc, SceneMode::Live, items.as_slice())?;
    open_cases_from(alloc, texts, traces, items.as_slice())
}

/// The acknowledgements of all cases.
fn open_acks_of(cases: &[OpenCase]) -> u64
    requires { length cases.now ≤ most_flows }
    ensures { result ≡ open_acks_of (map open_plan_of cases.now) }
{
    let mut total = 0;
    let mut rest = cases;
    while let Some((case, later)) = rest.split_first() {
        total += u64::from(case.acks);
        rest = later;
    }
    total
}

fn within_open_total(cases: OpenCases) -> Result<OpenCases, MemberFault>
    requires { length cases ≤ most_flows }
    ensures ok { IfOk result (λ cs. within_open_total (map open_plan_of cases) ≡ Ok (map open_plan_of cs)) }
    ensures same { IfOk result (λ cs. cs ≡ cases) }
    ensures err { IfErr result (λ e. within_open_total (map open_plan_of cases) ≡ Err e) }
{
    if open_acks_of(cases.as_slice()) > ACKS_IN_ALL {
        Err(MemberFault::Totals)
    } else {
        Ok(cases)
    }
}

/// The cases that a value says.
pub fn open_plans_in(alloc: Global, whole: &Value) -> Result<OpenCases, MemberFault>
    ensures ok { IfOk result (λ cs. open_plans_in (view whole.now) ≡ Ok (map open_plan_of cs)) }
    ensures flows { IfOk result (λ cs. AreOpenFlowsFrom 0 cs) }
    ensures count { IfOk result (λ cs. length cs ≤ most_flows) }
    ensures err { IfErr result (λ e. e ≢ fault.NoMemory no_memory → open_plans_in (view whole.now) ≡ Err e) }
{
    opening(alloc, whole)?;
    let texts = texts_in(alloc, whole)?;
    let traces = traces_in(alloc, whole)?;
    let cases = open_cases_in(alloc, texts.as_slice(), &traces, whole)?;
    within_open_total(cases)
}

//! The members of the whole: its version, and its cases within their limits.
ghost use Rattle.std.specs.Prelude.{◌≡◌, ◌≢◌, ◌≤◌, ◌+◌, IfOk, IfErr, OnOk, Ok, Err, length};
ghost use Rattle.std.specs.List.{All};
ghost use Rattle.ccp_base.specs.Outside.{no_memory};
ghost use Rattle.serde_json.specs.View.{view, items_view};
ghost use Rattle.ccp_base.specs.Limits.{most_cases, most_named_programs};
ghost use Rattle.agent_core.specs.Kinds.{built_in_count};
ghost use Rattle.scene_members.specs.Plans.{IsPlan, IsStart};
ghost use Rattle.scene_members.specs.Traces.{table_of};
ghost use Rattle.scene_members.specs.Whole.{most_cases_of, few_items, cases_in, total_acks, within_total, opening_in};
ghost use Rattle.scene_members.specs.Readers.{Gives};
ghost use Rattle.scene_members.specs.declared.fault.MemberFault.TheVariants as fault;

use crate::case::cases_from;
use crate::fault::MemberFault;
use crate::json_place::JsonPlace;
use crate::key::Key;
use crate::mode::SceneMode;
use crate::plan::{Plan, Plans};
use crate::traces::Traces;
use crate::values::{list, needed_member, needed_number, object};
use ccp_base::Name;
use serde_json::Value;
use std::alloc::Global;

/// The most acknowledgements of a live run.
pub(crate) const ACKS_IN_ALL: u64 = 262_144;

/// What comes before the programs: that the whole is an object, and its version, which is 1.
pub fn opening(alloc: Global, whole: &Value) -> Result<u64, MemberFault>
    ensures ok { IfOk result (λ version. opening_in (view whole.now) ≡ Ok version) }
    ensures err { IfErr result (λ e. e ≢ fault.NoMemory no_memory → opening_in (view whole.now) ≡ Err e) }
{
    object(alloc, JsonPlace::Whole, whole)?;
    needed_number(alloc, JsonPlace::Top(Key::Version), whole, Key::Version)
}

/// A list that doesn't have more items than there may be cases.
#[tactic(auto, using(crate::proofs::ListLemmas::items_count))]
pub(crate) fn few_items(alloc: Global, mode: SceneMode, items: &[Value]) -> Result<(), MemberFault>
    ensures walk { Gives (λ _. items_view items.now) result (few_items mode (items_view items.now)) }
    ensures count { OnOk result (length items.now ≤ most_cases_of mode) }
{
    if items.len() <= mode.most_cases() {
        Ok(())
    } else {
        Err(JsonPlace::Top(Key::Cases).range_fault(alloc))
    }
}

/// The acknowledgements of all cases.
fn acks_of(plans: &[Plan]) -> u64
    requires { length plans.now ≤ most_cases }
    ensures { result ≡ total_acks plans.now }
{
    let mut total = 0;
    let mut rest = plans;
    while let Some((plan, later)) = rest.split_first() {
        total += u64::from(plan.link_numbers.acks);
        rest = later;
    }
    total
}

fn within_total(mode: SceneMode, plans: Plans) -> Result<Plans, MemberFault>
    requires { length plans ≤ most_cases }
    ensures ok { IfOk result (λ ps. within_total mode plans ≡ Ok ps) }
    ensures same { IfOk result (λ ps. ps ≡ plans) }
    ensures err { IfErr result (λ e. within_total mode plans ≡ Err e) }
{
    match mode {
        SceneMode::Campaign => Ok(plans),
        _ if acks_of(plans.as_slice()) > ACKS_IN_ALL => Err(MemberFault::Totals),
        _ => Ok(plans),
    }
}

/// The cases of a scenario whose programs have these names, and whose traces are these.
pub fn cases_in(
    alloc: Global,
    mode: SceneMode,
    names: &[Name],
    traces: &Traces,
    whole: &Value,
) -> Result<Plans, MemberFault>
    requires { length names.now ≤ most_named_programs }
    ensures ok { IfOk result (λ ps. cases_in mode names.now (table_of traces.now.entries) (view whole.now) ≡ Ok ps) }
    ensures within { IfOk result (λ ps. All (IsPlan (length names.now + built_in_count)) ps) }
    ensures starts { IfOk result (λ ps. All (λ p. IsStart mode p.start_us) ps) }
    ensures count { IfOk result (λ ps. length ps ≤ most_cases_of mode) }
    ensures err { IfErr result (λ e. e ≢ fault.NoMemory no_memory
        → cases_in mode names.now (table_of traces.now.entries) (view whole.now) ≡ Err e) }
{
    let place = JsonPlace::Top(Key::Cases);
    let value = needed_member(alloc, place, whole, Key::Cases)?;
    let items = list(alloc, place, value)?;
    few_items(alloc, mode, items.as_slice())?;
    let plans = cases_from(alloc, mode, names, traces, items.as_slice())?;
    within_total(mode, plans)
}

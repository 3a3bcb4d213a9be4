//! The members that a scenario names by itself, as programs and traces: their names and their texts.
ghost use Rattle.std.specs.Prelude.{◌≡◌, ◌≢◌, ◌≤◌, Some, IfOk, IfErr, OnOk, Ok, Err};
ghost use Rattle.ccp_base.specs.Outside.{no_memory};
ghost use Rattle.serde_json.specs.View.{view, members_view};
ghost use Rattle.serde_json.specs.Events.{members_len};
ghost use Rattle.ccp_base.specs.Limits.{most_named_programs};
ghost use Rattle.scene_members.specs.NamedMembers.{few_members, named_members, named_text};
ghost use Rattle.scene_members.specs.Readers.{Gives};
ghost use Rattle.scene_members.specs.declared.fault.MemberFault.TheVariants as fault;

use crate::fault::MemberFault;
use crate::json_place::{JsonPlace, named_member_fault};
use crate::key::Key;
use crate::names::scene_name;
use crate::values::object;
use ccp_base::Name;
use serde_json::{Map, Value};
use std::alloc::Global;

/// The most programs that a scenario names.
const NAMED_PROGRAMS: usize = 13;

/// A member that a scenario names by itself: its name and its text.
#[derive(Clone, Copy)]
pub struct Named<'a> {
    pub name: Name,
    pub text: &'a str,
}

/// The name and the text of a member that a scenario names by itself, as a program or a trace.
pub fn named_text<'a>(
    alloc: Global,
    key: Key,
    name: &str,
    value: &'a Value,
) -> Result<Named<'a>, MemberFault>
    ensures ok { IfOk result (λ n. named_text key name.now (view value.now) ≡ Ok n.text.now) }
    ensures name { IfOk result (λ n. n.name ≡ name.now) }
    ensures err { IfErr result (λ e. e ≢ fault.NoMemory no_memory → named_text key name.now (view value.now) ≡ Err e) }
{
    let Some(checked) = scene_name(name.as_bytes()) else {
        return Err(named_member_fault(alloc, key, name.as_bytes()));
    };
    match value.as_str() {
        Some(text) => Ok(Named {
            name: checked,
            text,
        }),
        None => Err(named_member_fault(alloc, key, name.as_bytes())),
    }
}

/// An object that doesn't have more members than a scenario names programs.
#[tactic(auto, using(crate::proofs::ListLemmas::members_count))]
fn few_members(alloc: Global, members: &Map<String, Value>) -> Result<(), MemberFault>
    ensures walk { Gives (λ _. members_view members.now.entries) result
        (few_members (members_view members.now.entries)) }
    ensures count { OnOk result (members_len (members_view members.now.entries) ≤ most_named_programs) }
{
    if members.len() <= NAMED_PROGRAMS {
        Ok(())
    } else {
        Err(JsonPlace::Top(Key::Programs).range_fault(alloc))
    }
}

/// The programs that a scenario names, if its member `programs` is this: at most 13.
pub fn named_members(alloc: Global, value: &Value) -> Result<&Map<String, Value>, MemberFault>
    ensures ok { IfOk result (λ map. named_members (Some (view value.now)) ≡ Ok (members_view map.now.entries)) }
    ensures count { IfOk result (λ map. members_len (members_view map.now.entries) ≤ most_named_programs) }
    ensures err { IfErr result (λ e. e ≢ fault.NoMemory no_memory → named_members (Some (view value.now)) ≡ Err e) }
{
    let members = object(alloc, JsonPlace::Top(Key::Programs), value)?;
    few_members(alloc, members)?;
    Ok(members)
}

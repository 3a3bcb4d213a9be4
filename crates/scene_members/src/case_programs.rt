//! How the names of a case's programs become numbers, and which built-in ones are the defaults.
ghost use Rattle.std.specs.Prelude.{◌≡◌, ◌≤◌, ◌<◌, ◌+◌, IfOk, length, position, bytes_eq};
ghost use Rattle.std.specs.Option.{ForSome};
ghost use Rattle.serde_json.specs.View.{view};
ghost use Rattle.ccp_base.specs.Limits.{most_named_programs};
ghost use Rattle.agent_core.specs.Kinds.{built_in_count};
ghost use Rattle.scene_members.specs.Values.{member_of};
ghost use Rattle.scene_members.specs.CaseWalk.{program_named, program_or, case_programs};
ghost use Rattle.scene_members.specs.Readers.{Gives};

use crate::fault::MemberFault;
use crate::json_place::JsonPlace;
use crate::key::Key;
use crate::mode::SceneMode;
use crate::plan::Programs;
use crate::values::{member, text};
use agent_core::{BUILT_INS, Kind};
use ccp_base::Name;
use serde_json::Value;
use std::alloc::Global;

fn is_named(known: &Name, name: &[u8]) -> bool
    ensures { result ≡ bytes_eq known.now name.now }
{
    known.as_slice() == name
}

// A function of its own: a search followed by `?` isn't proved in one function.
fn index_of(names: &[Name], name: &[u8]) -> Option<usize>
    ensures index { result ≡ position (λ known. bytes_eq known name.now) names.now }
    ensures within { ForSome result (λ i. i < length names.now) }
{
    names.iter().position(|known| is_named(known, name))
}

/// The number of a program that the scenario names.
fn program_named(names: &[Name], name: &[u8]) -> Option<u32>
    requires { length names.now ≤ most_named_programs }
    ensures number { result ≡ program_named name.now names.now }
    ensures within { ForSome result (λ n. n < length names.now + built_in_count) }
{
    let index = index_of(names, name)?;
    Some(index as u32 + BUILT_INS)
}

fn program_or(
    alloc: Global,
    place: JsonPlace,
    names: &[Name],
    default: u32,
    whole: &Value,
    key: Key,
) -> Result<u32, MemberFault>
    requires few { length names.now ≤ most_named_programs }
    requires built_in { default < built_in_count }
    ensures walk { Gives (λ n. n) result (program_or place names.now default (member_of key (view whole.now))) }
    ensures within { IfOk result (λ n. n < length names.now + built_in_count) }
{
    let Some(value) = member(whole, key) else {
        return Ok(default);
    };
    let name = text(alloc, place, value)?;
    match program_named(names, name.as_bytes()) {
        Some(number) => Ok(number),
        None => Err(place.wrong_fault(alloc)),
    }
}

/// The numbers of a case's programs; those of a flow whose agent is outside are the built-in ones of Reno, whatever the
/// members are.
pub(crate) fn programs(
    alloc: Global,
    mode: SceneMode,
    names: &[Name],
    kind: Kind,
    i: usize,
    whole: &Value,
) -> Result<Programs, MemberFault>
    requires few { length names.now ≤ most_named_programs }
    ensures walk { Gives (λ p. p) result (case_programs mode names.now kind i (view whole.now)) }
    ensures ss_within { IfOk result (λ p. p.ss < length names.now + built_in_count) }
    ensures ca_within { IfOk result (λ p. p.ca < length names.now + built_in_count) }
{
    // A plan has programs; a driven flow runs those that its changes name.
    if let SceneMode::Driven = mode {
        return Ok(Programs {
            ss: 0,
            ca: Kind::Reno.avoidance(),
        });
    }
    let ss = program_or(alloc, JsonPlace::In(i, Key::Ss), names, 0, whole, Key::Ss)?;
    let ca = program_or(
        alloc,
        JsonPlace::In(i, Key::Ca),
        names,
        kind.avoidance(),
        whole,
        Key::Ca,
    )?;
    Ok(Programs { ss, ca })
}

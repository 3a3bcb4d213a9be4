//! The readers of JSON members: numbers within a key's range, texts, lists and objects.
ghost use Rattle.std.specs.Prelude.{◌≡◌, ◌≤◌, IfOk, option_map};
ghost use Rattle.serde_json.specs.View.{view, items_view, members_view};
ghost use Rattle.scene_members.specs.Keys.{least_of, greatest_value};
ghost use Rattle.scene_members.specs.Values.{member_of, needed_member, in_range, number_in, text_in, list_in, object_in};
ghost use Rattle.scene_members.specs.Values.{needed_number, number_or};
ghost use Rattle.scene_members.specs.Readers.{Gives};

use crate::fault::MemberFault;
use crate::json_place::JsonPlace;
use crate::key::Key;
use serde_json::{Map, Value};
use std::alloc::Global;

/// The member of an object with this key.
pub fn member(whole: &Value, key: Key) -> Option<&Value>
    ensures { option_map (λ v. view v.now) result ≡ member_of key (view whole.now) }
{
    whole.get(key.word())
}

/// A member that must be there.
pub(crate) fn needed_member(
    alloc: Global,
    place: JsonPlace,
    whole: &Value,
    key: Key,
) -> Result<&Value, MemberFault>
    ensures { Gives (λ v. view v.now) result (needed_member place (member_of key (view whole.now))) }
{
    match member(whole, key) {
        Some(value) => Ok(value),
        None => Err(place.missing_fault(alloc)),
    }
}

fn in_range(alloc: Global, place: JsonPlace, key: Key, number: u64) -> Result<u64, MemberFault>
    ensures walk { Gives (λ n. n) result (in_range place key number) }
    ensures least { IfOk result (λ n. least_of key ≤ n) }
    ensures most { IfOk result (λ n. n ≤ greatest_value key) }
{
    if key.least() <= number && number <= key.most() {
        Ok(number)
    } else {
        Err(place.range_fault(alloc))
    }
}

/// A whole number in the range of this key. A negative one is out of range, and 5.0 is no whole number.
pub(crate) fn number(
    alloc: Global,
    place: JsonPlace,
    key: Key,
    value: &Value,
) -> Result<u64, MemberFault>
    ensures walk { Gives (λ n. n) result (number_in place key (view value.now)) }
    ensures least { IfOk result (λ n. least_of key ≤ n) }
    ensures most { IfOk result (λ n. n ≤ greatest_value key) }
{
    match (value.as_u64(), value.as_i64()) {
        (Some(number), _) => in_range(alloc, place, key, number),
        (None, Some(_)) => Err(place.range_fault(alloc)),
        (None, None) => Err(place.wrong_fault(alloc)),
    }
}

pub(crate) fn text(alloc: Global, place: JsonPlace, value: &Value) -> Result<&str, MemberFault>
    ensures { Gives (λ text. text.now) result (text_in place (view value.now)) }
{
    match value.as_str() {
        Some(text) => Ok(text),
        None => Err(place.wrong_fault(alloc)),
    }
}

pub(crate) fn list(
    alloc: Global,
    place: JsonPlace,
    value: &Value,
) -> Result<&Vec<Value>, MemberFault>
    ensures { Gives (λ list. items_view list.now.items) result (list_in place (view value.now)) }
{
    match value.as_array() {
        Some(list) => Ok(list),
        None => Err(place.wrong_fault(alloc)),
    }
}

pub(crate) fn object(
    alloc: Global,
    place: JsonPlace,
    value: &Value,
) -> Result<&Map<String, Value>, MemberFault>
    ensures { Gives (λ map. members_view map.now.entries) result (object_in place (view value.now)) }
{
    match value.as_object() {
        Some(map) => Ok(map),
        None => Err(place.wrong_fault(alloc)),
    }
}

/// A number that must be there.
pub(crate) fn needed_number(
    alloc: Global,
    place: JsonPlace,
    whole: &Value,
    key: Key,
) -> Result<u64, MemberFault>
    ensures walk { Gives (λ n. n) result (needed_number place key (view whole.now)) }
    ensures least { IfOk result (λ n. least_of key ≤ n) }
    ensures most { IfOk result (λ n. n ≤ greatest_value key) }
{
    let value = needed_member(alloc, place, whole, key)?;
    number(alloc, place, key, value)
}

/// A number if there is one, else the default.
pub(crate) fn number_or(
    alloc: Global,
    place: JsonPlace,
    whole: &Value,
    key: Key,
    default: u64,
) -> Result<u64, MemberFault>
    requires least { least_of key ≤ default }
    requires most { default ≤ greatest_value key }
    ensures walk { Gives (λ n. n) result (number_or place key default (member_of key (view whole.now))) }
    ensures least { IfOk result (λ n. least_of key ≤ n) }
    ensures most { IfOk result (λ n. n ≤ greatest_value key) }
{
    match member(whole, key) {
        Some(value) => number(alloc, place, key, value),
        None => Ok(default),
    }
}

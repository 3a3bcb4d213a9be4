//! How a case's losses and mark are read.
ghost use Rattle.std.specs.Prelude.{◌≡◌, ◌≤◌, ◌<◌, IfOk, []};
ghost use Rattle.std.specs.Option.{ForSome};
ghost use Rattle.std.specs.List.Sorted.{IsStrictlyIncreasing};
ghost use Rattle.serde_json.specs.View.{view, items_view};
ghost use Rattle.ccp_base.specs.Limits.{most_mark};
ghost use Rattle.scene_members.specs.Values.{member_of};
ghost use Rattle.scene_members.specs.CaseWalk.{loss_above, loss_in, last_of, losses_from, losses_or, mark_or, case_loss_plan};
ghost use Rattle.scene_members.specs.Readers.{Gives};
ghost use Rattle.scene_members.specs.declared.key.Key.TheVariants as key;

use crate::fault::MemberFault;
use crate::json_place::JsonPlace;
use crate::key::Key;
use crate::plan::LossPlan;
use crate::values::{list, member, number};
use ccp_base::Sequence;
use serde_json::Value;
use std::alloc::Global;

/// A loss that must be above the one before.
fn loss_above(
    alloc: Global,
    place: JsonPlace,
    before: Option<u32>,
    number: u32,
) -> Result<u32, MemberFault>
    ensures walk { Gives (λ n. n) result (loss_above place before number) }
    ensures above { IfOk result (λ n. ForSome before (λ b. b < n)) }
{
    match before {
        Some(before) if before >= number => Err(place.wrong_fault(alloc)),
        _ => Ok(number),
    }
}

fn loss(
    alloc: Global,
    place: JsonPlace,
    before: Option<u32>,
    value: &Value,
) -> Result<u32, MemberFault>
    ensures walk { Gives (λ n. n) result (loss_in place before (view value.now)) }
    ensures above { IfOk result (λ n. ForSome before (λ b. b < n)) }
{
    let number = number(alloc, place, Key::Losses, value)?;
    loss_above(alloc, place, before, number as u32)
}

// A function of its own: its clause says it by the definition, which the proof of `losses_from` cites.
fn last_of(numbers: &[u32]) -> Option<u32>
    ensures { result ≡ last_of numbers.now }
{
    numbers.last().copied()
}

fn losses_from(alloc: Global, i: usize, values: &[Value]) -> Result<Sequence<u32>, MemberFault>
    ensures walk { Gives (λ losses. losses) result (losses_from i [] (items_view values.now)) }
    ensures rise { IfOk result IsStrictlyIncreasing }
{
    let mut losses = Sequence::new(alloc);
    let mut rest = values;
    while let Some((value, later)) = rest.split_first() {
        let place = JsonPlace::Item(i, Key::Losses, losses.len());
        let number = loss(alloc, place, last_of(losses.as_slice()), value)?;
        losses.push(number)?;
        rest = later;
    }
    Ok(losses)
}

fn losses_or(alloc: Global, i: usize, whole: &Value) -> Result<Sequence<u32>, MemberFault>
    ensures walk { Gives (λ losses. losses) result (losses_or i (member_of key.Losses (view whole.now))) }
    ensures rise { IfOk result IsStrictlyIncreasing }
{
    match member(whole, Key::Losses) {
        None => Ok(Sequence::new(alloc)),
        Some(value) => {
            let values = list(alloc, JsonPlace::In(i, Key::Losses), value)?;
            losses_from(alloc, i, values.as_slice())
        }
    }
}

fn mark_or(alloc: Global, place: JsonPlace, whole: &Value) -> Result<Option<u32>, MemberFault>
    ensures walk { Gives (λ mark. mark) result (mark_or place (member_of key.Mark (view whole.now))) }
    ensures within { IfOk result (λ mark. ForSome mark (λ m. (1 ≤ m) × (m ≤ most_mark))) }
{
    match member(whole, Key::Mark) {
        None => Ok(None),
        Some(value) => {
            let number = number(alloc, place, Key::Mark, value)?;
            Ok(Some(number as u32))
        }
    }
}

/// Which packets are lost and marked.
pub(crate) fn loss_plan(alloc: Global, i: usize, whole: &Value) -> Result<LossPlan, MemberFault>
    ensures walk { Gives (λ f. f) result (case_loss_plan i (view whole.now)) }
    ensures rise { IfOk result (λ f. IsStrictlyIncreasing f.losses) }
    ensures within { IfOk result (λ f. ForSome f.mark (λ m. (1 ≤ m) × (m ≤ most_mark))) }
{
    let losses = losses_or(alloc, i, whole)?;
    let mark = mark_or(alloc, JsonPlace::In(i, Key::Mark), whole)?;
    Ok(LossPlan { losses, mark })
}

//! How the steps of a rollout's case are read.
ghost use Rattle.std.specs.Prelude.{◌≡◌, ◌≤◌, IfOk, OnOk, [], length};
ghost use Rattle.serde_json.specs.View.{view, items_view};
ghost use Rattle.ccp_base.specs.Limits.{most_steps};
ghost use Rattle.scene_members.specs.Rollout.{steps_from, some_steps, case_steps};
ghost use Rattle.scene_members.specs.OpenCases.{texts_of};
ghost use Rattle.scene_members.specs.Readers.{Gives};

use crate::fault::MemberFault;
use crate::json_place::JsonPlace;
use crate::key::Key;
use crate::open_case::StepTexts;
use crate::open_texts::{OpenText, step_in};
use crate::values::{list, needed_member};
use ccp_base::{STEPS, Sequence};
use serde_json::Value;
use std::alloc::Global;

fn steps_from(
    alloc: Global,
    texts: &[OpenText],
    i: usize,
    values: &[Value],
) -> Result<StepTexts, MemberFault>
    ensures walk { Gives (λ steps. steps) result (steps_from (texts_of texts.now) i [] (items_view values.now)) }
    ensures count { IfOk result (λ steps. length steps ≡ length values.now) }
{
    let mut steps = Sequence::new(alloc);
    let mut rest = values;
    while let Some((value, later)) = rest.split_first() {
        let place = JsonPlace::Item(i, Key::Steps, steps.len());
        steps.push(step_in(alloc, place, texts, value)?)?;
        rest = later;
    }
    Ok(steps)
}

#[tactic(auto, using(crate::proofs::ListLemmas::items_count))]
fn some_steps(alloc: Global, place: JsonPlace, items: &[Value]) -> Result<(), MemberFault>
    ensures walk { Gives (λ _. items_view items.now) result (some_steps place (items_view items.now)) }
    ensures some { OnOk result (1 ≤ length items.now) }
    ensures few { OnOk result (length items.now ≤ most_steps) }
{
    if 1 <= items.len() && items.len() <= STEPS {
        Ok(())
    } else {
        Err(place.range_fault(alloc))
    }
}

/// The texts of a case's steps.
pub(crate) fn case_steps(
    alloc: Global,
    texts: &[OpenText],
    i: usize,
    whole: &Value,
) -> Result<StepTexts, MemberFault>
    ensures walk { Gives (λ steps. steps) result (case_steps (texts_of texts.now) i (view whole.now)) }
    ensures some { IfOk result (λ steps. 1 ≤ length steps) }
    ensures few { IfOk result (λ steps. length steps ≤ most_steps) }
{
    let place = JsonPlace::In(i, Key::Steps);
    let value = needed_member(alloc, place, whole, Key::Steps)?;
    let items = list(alloc, place, value)?;
    some_steps(alloc, place, items.as_slice())?;
    steps_from(alloc, texts, i, items.as_slice())
}

//! The texts of a rollout's programs by name, and the copy that a step takes.
ghost use Rattle.std.specs.Prelude.{◌≡◌, [], option_map, bytes_eq};
ghost use Rattle.serde_json.specs.View.{view, members_view};
ghost use Rattle.scene_members.specs.Rollout.{texts_from, texts_in, text_named, step_in};
ghost use Rattle.scene_members.specs.OpenCases.{texts_of};
ghost use Rattle.scene_members.specs.Readers.{Gives};

use crate::fault::MemberFault;
use crate::json_place::JsonPlace;
use crate::key::Key;
use crate::named::{named_members, named_text};
use crate::open_case::bytes_of;
use crate::values::{member, text};
use ccp_base::{Bytes, Name, Sequence};
use serde_json::{Map, Value};
use std::alloc::Global;

/// The text of a program under its name.
#[derive(Drop)]
pub(crate) struct OpenText {
    pub name: Name,
    pub text: Bytes,
}

/// Texts of programs, by name.
pub(crate) type OpenTexts = Sequence<OpenText>;

fn texts_from(alloc: Global, members: &Map<String, Value>) -> Result<OpenTexts, MemberFault>
    ensures { Gives texts_of result (texts_from [] (members_view members.now.entries)) }
{
    let mut texts = Sequence::new(alloc);
    for (name, value) in members.iter() {
        let named = named_text(alloc, Key::Programs, name.as_str(), value)?;
        let text = bytes_of(alloc, named.text.as_bytes())?;
        texts.push(OpenText {
            name: named.name,
            text,
        })?;
    }
    Ok(texts)
}

/// The texts of a scenario's programs.
pub(crate) fn texts_in(alloc: Global, whole: &Value) -> Result<OpenTexts, MemberFault>
    ensures { Gives texts_of result (texts_in (view whole.now)) }
{
    let Some(value) = member(whole, Key::Programs) else {
        return Ok(Sequence::new(alloc));
    };
    let members = named_members(alloc, value)?;
    texts_from(alloc, members)
}

fn is_named(name: &[u8], known: &Name) -> bool
    ensures { result ≡ bytes_eq name.now known.now }
{
    name == known.as_slice()
}

/// The text with this name.
fn text_named<'a>(texts: &'a [OpenText], name: &[u8]) -> Option<&'a Bytes>
    ensures { option_map (λ t. t.now) result ≡ text_named name.now (texts_of texts.now) }
{
    let mut rest = texts;
    while let Some((text, later)) = rest.split_first() {
        if is_named(name, &text.name) {
            return Some(&text.text);
        }
        rest = later;
    }
    None
}

/// A copy of the text that a value names.
pub(crate) fn step_in(
    alloc: Global,
    place: JsonPlace,
    texts: &[OpenText],
    value: &Value,
) -> Result<Bytes, MemberFault>
    ensures { Gives (λ t. t) result (step_in place (texts_of texts.now) (view value.now)) }
{
    let name = text(alloc, place, value)?;
    match text_named(texts, name.as_bytes()) {
        Some(text) => Ok(bytes_of(alloc, text.as_slice())?),
        None => Err(place.wrong_fault(alloc)),
    }
}

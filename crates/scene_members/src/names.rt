//! Which names a scenario may give: 1 to 32 letters, digits, `_`, `-` and `.`.
ghost use Rattle.std.specs.Prelude.{◌≡◌};
ghost use Rattle.std.specs.List.{list_all};
ghost use Rattle.serde_json.specs.View.{view};
ghost use Rattle.scene_members.specs.SceneNames.{is_name_byte, scene_name, name_in};
ghost use Rattle.scene_members.specs.Readers.{Gives};

use crate::fault::MemberFault;
use crate::json_place::JsonPlace;
use crate::values::text;
use ccp_base::Name;
use serde_json::Value;
use std::alloc::Global;

/// The longest name, in bytes.
const NAME_BYTES: usize = 32;

fn is_name_byte(byte: u8) -> bool
    ensures { result ≡ is_name_byte byte }
{
    byte.is_ascii_alphanumeric() || byte == b'_' || byte == b'-' || byte == b'.'
}

fn are_name_bytes(text: &[u8]) -> bool
    ensures { result ≡ list_all is_name_byte text.now }
{
    text.iter().all(|byte| is_name_byte(*byte))
}

/// A text if it is a name: 1 to 32 letters, digits, `_`, `-` and `.`.
pub(crate) fn scene_name(text: &[u8]) -> Option<Name>
    ensures { result ≡ scene_name text.now }
{
    if text.len() <= NAME_BYTES && are_name_bytes(text) {
        Name::new(text)
    } else {
        None
    }
}

/// A value that must be a name.
pub(crate) fn name(alloc: Global, place: JsonPlace, value: &Value) -> Result<Name, MemberFault>
    ensures { Gives (λ n. n) result (name_in place (view value.now)) }
{
    let text = text(alloc, place, value)?;
    match scene_name(text.as_bytes()) {
        Some(name) => Ok(name),
        None => Err(place.wrong_fault(alloc)),
    }
}

//! How an atom becomes a numeral or a word of a form, or is refused.
ghost use Rattle.std.specs.Prelude.{◌≡◌, ◌&&◌, IsTrue, IfOk, IfErr, Ok, Err, Some, None, if◌then◌else◌};
ghost use Rattle.portus_core.specs.Trees.{node_of};
ghost use Rattle.portus_parser.specs.Atoms.{is_mark, is_word, begins_with_digit, atom_of};

use crate::fault::ParseFault;
use ccp_base::{Name, Place, is_operation_mark, numeral, same_bytes};
use portus_core::{Tree, is_name_shaped};

/// Whether the text begins with a digit.
fn begins_with_digit(text: &[u8]) -> bool
    ensures { result ≡ begins_with_digit text.now }
{
    match text.first() {
        Some(first) => first.is_ascii_digit(),
        None => false,
    }
}

/// Whether the text is one of the words that aren't shaped as a name.
fn is_mark(text: &[u8]) -> bool
    ensures { result ≡ is_mark text.now }
{
    is_operation_mark(text)
        || same_bytes(text, b":=")
        || same_bytes(text, b"!if")
        || same_bytes(text, b"+infinity")
}

/// The text as a word; None if it isn't one.
fn word(text: &[u8]) -> Option<Name>
    ensures { result ≡ (if is_word text.now then Some text.now else None) }
{
    if is_name_shaped(text) || is_mark(text) {
        Name::new(text)
    } else {
        None
    }
}

/// The tree of an atom.
pub fn atom(place: Place, text: &[u8]) -> Result<Tree, ParseFault>
    ensures tree { IfOk result (λ tree. atom_of place text.now ≡ Ok (node_of tree)) }
    ensures refused { IfErr result (λ fault. atom_of place text.now ≡ Err fault) }
{
    if begins_with_digit(text) {
        match numeral(text) {
            Some(value) => Ok(Tree::Num(place, value)),
            None => Err(ParseFault::BadNumeral(place)),
        }
    } else {
        match word(text) {
            Some(name) => Ok(Tree::Word(place, name)),
            None => Err(ParseFault::BadName(place)),
        }
    }
}

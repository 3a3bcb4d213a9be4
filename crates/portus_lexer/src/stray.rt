//! The first byte of a text that may not stand where it does, found without memory.
ghost use Rattle.std.specs.Prelude.{◌≡◌, ◌≤◌, ◌==◌, not, Some, length, if◌then◌else◌};
ghost use Rattle.ccp_base.specs.Limits.{most_text_bytes};
ghost use Rattle.ccp_base.specs.declared.place.Place.{Place};
ghost use Rattle.portus_lexer.specs.declared.token.LexFault.TheVariants.{NotText};
ghost use Rattle.portus_lexer.specs.Strays.{stray_of, HasCause};

use crate::scan::{is_allowed, step};
use crate::token::LexFault;
use ccp_base::Place;

/// A fault of a scan, or the stray byte that the scan didn't reach because memory ran out before it.
pub fn before_memory(text: &[u8], fault: LexFault) -> LexFault
    requires short { length text.now ≤ most_text_bytes }
    requires cause { HasCause text.now fault }
    ensures cause { HasCause text.now result }
    ensures stray { (place : Place) → stray_of text.now ≡ Some place → result ≡ NotText place }
{
    match fault {
        LexFault::NotText(_) => fault,
        LexFault::NoMemory(_) => match first_stray(text) {
            Some(place) => LexFault::NotText(place),
            None => fault,
        },
    }
}

/// The place of the first byte outside comments that isn't allowed there.
#[tactic(auto, using(crate::proofs::StraySteps::stray_step, crate::proofs::StraySteps::stray_here))]
fn first_stray(text: &[u8]) -> Option<Place>
    requires { length text.now ≤ most_text_bytes }
    ensures { result ≡ stray_of text.now }
{
    let mut place = Place { line: 1, column: 1 };
    let mut commented = false;
    let mut left = text;
    while let Some((byte, rest)) = left.split_first() {
        if !commented && !is_allowed(*byte) {
            return Some(place);
        }
        commented = commented_after(commented, *byte);
        place = step(place, *byte);
        left = rest;
    }
    None
}

/// Whether the byte after this one is in a comment.
fn commented_after(commented: bool, byte: u8) -> bool
    ensures { result ≡ (if commented then not (byte == 10) else byte == 35) }
{
    if commented {
        byte != b'\n'
    } else {
        byte == b'#'
    }
}

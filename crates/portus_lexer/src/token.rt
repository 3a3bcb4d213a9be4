//! Tokens with their places and spans, and why a text has none.
ghost use Rattle.std.specs.Prelude.{◌≡◌};
ghost use Rattle.ccp_base.specs.Outside.{no_memory};
ghost use Rattle.portus_lexer.specs.declared.token.LexFault.TheVariants.{NoMemory};

use ccp_base::{NoMemory, Place, Sequence};
use std::alloc::AllocError;

/// A parenthesis or an atom of a text: its place, and its bytes from `start` to `end`, which is left out.
/// `start` and `end` count the text's bytes from 0.
#[derive(Clone, Copy, PartialEq, Eq)]
pub struct Token {
    pub place: Place,
    pub start: u32,
    pub end: u32,
}

/// The tokens of a text, in order.
pub type Tokens = Sequence<Token>;

/// Why a text has no tokens.
#[derive(Clone, Copy, PartialEq, Eq, Debug)]
pub enum LexFault {
    /// A byte outside comments isn't tab, LF, CR or one of 0x20 to 0x7E. The place is that of the first one.
    NotText(Place),
    NoMemory(NoMemory),
}

impl From<AllocError> for LexFault {
    ghost from_gives = { λ _ fault. fault ≡ NoMemory no_memory };

    fn from(error: AllocError) -> Self {
        LexFault::NoMemory(NoMemory::from(error))
    }
}

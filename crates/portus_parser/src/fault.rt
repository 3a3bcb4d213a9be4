//! Why a program's text can't be read: the refusals of the lexer and of the parser.
ghost use Rattle.std.specs.Prelude.{◌≡◌};
ghost use Rattle.ccp_base.specs.Outside.{no_memory};
ghost use Rattle.portus_parser.specs.LexFaults.{lex_fault};
ghost use Rattle.portus_parser.specs.declared.fault.ParseFault.TheVariants.{NoMemory};

use ccp_base::{NoMemory, Place};
use portus_lexer::LexFault;
use std::alloc::{AllocError, AllocFailed};

/// Why a text can't be read. The answer is the first cause in this order; of the four from `Unexpected` to `Nesting` it
/// is the first in the text, and `Unexpected` if two have one place.
#[derive(Clone, Copy, Debug)]
pub enum ParseFault {
    /// The text is longer than 65,536 bytes.
    SourceTooLong,
    /// A byte outside comments isn't tab, LF, CR or one of 0x20 to 0x7E. The place is that of the first one.
    NotText(Place),
    /// A `)` closes nothing, or an atom stands outside all lists.
    Unexpected(Place),
    /// An atom begins with a digit and isn't decimal digits with a value below 2^64.
    BadNumeral(Place),
    /// An atom doesn't begin with a digit and isn't a word of the language, which has at most 64 bytes.
    BadName(Place),
    /// A `(` stands inside 64 open lists.
    Nesting(Place),
    /// The text leaves a list open. The place is the `(` of the last such list.
    Unclosed(Place),
    NoMemory(NoMemory),
}

impl From<AllocError> for ParseFault {
    ghost from_gives = { λ _ fault. fault ≡ NoMemory no_memory };

    fn from(error: AllocError) -> Self {
        ParseFault::NoMemory(NoMemory::from(error))
    }
}

impl<T: Drop> From<AllocFailed<T>> for ParseFault {
    ghost from_gives = { λ _ fault. fault ≡ NoMemory no_memory };

    fn from(error: AllocFailed<T>) -> Self {
        ParseFault::NoMemory(NoMemory::from(error))
    }
}

impl From<LexFault> for ParseFault {
    ghost from_gives = { λ fault result. result ≡ lex_fault fault };

    fn from(fault: LexFault) -> Self {
        match fault {
            LexFault::NotText(place) => ParseFault::NotText(place),
            LexFault::NoMemory(error) => ParseFault::NoMemory(error),
        }
    }
}

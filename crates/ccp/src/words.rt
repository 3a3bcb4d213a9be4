//! The words of the command line, as the system gives them to the process.
ghost use Rattle.std.specs.Prelude.{◌≡◌, IfOk, IfErr};
ghost use Rattle.std.specs.Iterator.{IsFinite};
ghost use Rattle.ccp_base.specs.Outside.{no_memory};
ghost use Rattle.ccp.specs.Words.{words_fault, AreWords, IsCause};

use ccp_base::NoMemory;
use std::alloc::{AllocError, Global};
use std::io;
use std::io::ErrorKind;

/// Why there are no words.
#[derive(Clone, Copy)]
pub enum WordsFault {
    /// The system reports an error other than out of memory: one of the words isn't UTF-8.
    NotText,
    /// Out of memory, for the words or for their list.
    NoMemory(NoMemory),
}

impl From<AllocError> for WordsFault {
    ghost use Rattle.std.specs.Prelude.{◌≡◌};
    ghost use Rattle.ccp.specs.declared.words.WordsFault.TheVariants as fault;

    ghost from_gives = { λ _ e. e ≡ fault.NoMemory no_memory };

    fn from(error: AllocError) -> WordsFault {
        WordsFault::NoMemory(NoMemory::from(error))
    }
}

/// What an error of the system says of the words.
fn fault_of(kind: ErrorKind) -> WordsFault
    ensures { result ≡ words_fault kind }
{
    match kind {
        // by this kind the system reports a refused growth
        ErrorKind::OutOfMemory => WordsFault::from(AllocError),
        _ => WordsFault::NotText,
    }
}

/// All the words that the system gives, in order, the program's name first. `NotText` exactly if the system reports an
/// error other than out of memory.
pub fn words<I: Iterator<Item = String> + Drop>(
    alloc: Global,
    given: io::Result<I>,
) -> Result<Vec<String>, WordsFault>
    requires ends { IfOk given (λ words. I.can_next words × IsFinite (I.remaining words)) }
    ensures all { IfOk result (λ words. AreWords I.next_gives given words.items) }
    ensures cause { IfErr result (IsCause given) }
{
    match given {
        Ok(words) => Ok(words.collect(alloc)?),
        Err(error) => Err(fault_of(error.kind())),
    }
}

//! Why a program isn't compiled: it is too deep or too long, or memory runs out.
ghost use Rattle.ccp_base.specs.Outside.{no_memory};

use ccp_base::{NoMemory, Place};

/// Why a program isn't compiled.
#[derive(Clone, Copy, PartialEq, Eq, Debug)]
pub enum CompileFault {
    /// The expression whose head atom stands at this place is the first, in the order of the text, that needs more
    /// than 8 temporaries.
    TooDeep(Place),
    /// No expression is too deep, and the program's count of instructions, this one, is above 256. A count of 2^64 and
    /// more is shown as 2^64 - 1.
    CodeTooLong(u64),
    NoMemory(NoMemory),
}

impl From<NoMemory> for CompileFault {
    ghost use Rattle.std.specs.Prelude.{◌≡◌};
    ghost use Rattle.reg_compiler.specs.declared.fault.CompileFault.TheVariants.{NoMemory};

    ghost from_gives = { λ _ e. e ≡ NoMemory no_memory };

    fn from(error: NoMemory) -> Self {
        CompileFault::NoMemory(error)
    }
}

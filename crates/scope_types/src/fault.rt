//! Why a text's forms are no program, with the place of the refused part.
ghost use Rattle.ccp_base.specs.Outside.{no_memory};

use ccp_base::{NoMemory, Place};
use std::alloc::{AllocError, AllocFailed};

/// What a program has too many of.
#[derive(Clone, Copy, Debug)]
pub enum What {
    Fields,
    Controls,
    Locals,
    Blocks,
}

/// Why a text's forms are no program, with the place of the part that is refused.
#[derive(Clone, Copy, Debug)]
pub enum ScopeFault {
    /// A word has no meaning here, as `y` in `(:= x (+ y 1))` if nothing named `y` was declared or assigned.
    Unknown(Place),
    /// A word is declared twice, or a second group of fields begins.
    Twice(Place),
    /// A primitive is assigned.
    NotWritable(Place),
    /// A number where a Bool is required, a Bool as the target of `ewma`, or a weight of `ewma` that isn't 0 to 10.
    Kind(Place),
    /// A word or a list where the grammar doesn't allow one, as `(x)` for a command.
    Misplaced(Place),
    /// An assignment to `Micros` of anything but the numeral 0.
    Micros(Place),
    /// A field, control variable, local or block is past the most that there may be.
    TooMany(Place, What),
    /// Out of memory.
    NoMemory(NoMemory),
}

impl From<AllocError> for ScopeFault {
    ghost use Rattle.std.specs.Prelude.{◌≡◌};
    ghost use Rattle.scope_types.specs.declared.fault.ScopeFault.TheVariants.{NoMemory};

    ghost from_gives = { λ _ e. e ≡ NoMemory no_memory };

    fn from(error: AllocError) -> ScopeFault {
        ScopeFault::NoMemory(NoMemory::from(error))
    }
}

impl<T: Drop> From<AllocFailed<T>> for ScopeFault {
    ghost use Rattle.std.specs.Prelude.{◌≡◌};
    ghost use Rattle.scope_types.specs.declared.fault.ScopeFault.TheVariants.{NoMemory};

    ghost from_gives = { λ _ e. e ≡ NoMemory no_memory };

    fn from(error: AllocFailed<T>) -> ScopeFault {
        ScopeFault::NoMemory(NoMemory::from(error))
    }
}

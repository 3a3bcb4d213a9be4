//! Why a member of a scenario isn't read, with the place where it stands.
ghost use Rattle.ccp_base.specs.Outside.{no_memory};

use ccp_base::{Bytes, Name, NoMemory};
use link_model::TraceFault;
use std::alloc::{AllocError, AllocFailed};

/// Where a value stands in a scenario, as `cases[0].mss`.
pub type Path = Bytes;

/// Why a text is no scenario before any program is built: the first cause, in the order of the text's parts.
#[derive(Drop)]
pub enum MemberFault {
    /// It is no JSON.
    Json,
    /// A member isn't there.
    Missing(Path),
    /// A value is of another kind, a name is no name, or nothing has that name.
    Wrong(Path),
    /// A number, or the length of a list or an object, isn't in its range.
    Range(Path),
    /// The text of the trace with this name is no trace.
    Trace(Name, TraceFault),
    /// The cases have more than 262,144 acknowledgements.
    Totals,
    /// There was no memory left.
    NoMemory(NoMemory),
}

impl From<AllocError> for MemberFault {
    ghost use Rattle.std.specs.Prelude.{◌≡◌};
    ghost use Rattle.scene_members.specs.declared.fault.MemberFault.TheVariants as fault;

    ghost from_gives = { λ _ f. f ≡ fault.NoMemory no_memory };

    fn from(error: AllocError) -> MemberFault {
        MemberFault::NoMemory(NoMemory::from(error))
    }
}

impl<T: Drop> From<AllocFailed<T>> for MemberFault {
    ghost use Rattle.std.specs.Prelude.{◌≡◌};
    ghost use Rattle.scene_members.specs.declared.fault.MemberFault.TheVariants as fault;

    ghost from_gives = { λ _ f. f ≡ fault.NoMemory no_memory };

    fn from(error: AllocFailed<T>) -> MemberFault {
        MemberFault::NoMemory(NoMemory::from(error))
    }
}

impl From<NoMemory> for MemberFault {
    ghost use Rattle.std.specs.Prelude.{◌≡◌};
    ghost use Rattle.scene_members.specs.declared.fault.MemberFault.TheVariants as fault;

    ghost from_gives = { λ _ f. f ≡ fault.NoMemory no_memory };

    fn from(error: NoMemory) -> MemberFault {
        MemberFault::NoMemory(error)
    }
}

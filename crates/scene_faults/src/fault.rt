//! Why a text is no scenario: the first cause, in the order of the text's parts.
ghost use Rattle.ccp_base.specs.Outside.{no_memory};

use ccp_base::{Name, NoMemory};
use link_model::TraceFault;
use portus_build::BuildFault;
use scene_members::{MemberFault, Path};
use std::alloc::AllocError;
use thiserror::Error;

/// Why a text is no scenario: the first cause, in the order of the text's parts.
#[derive(Debug, Drop, Error)]
pub enum SceneFault {
    /// It is no JSON.
    #[error("no JSON")]
    Json,
    /// A member isn't there.
    #[error("missing {0:?}")]
    Missing(Path),
    /// A value is of another kind, a name is no name, or nothing has that name.
    #[error("wrong {0:?}")]
    Wrong(Path),
    /// A number, or the length of a list or an object, isn't in its range.
    #[error("out of range {0:?}")]
    Range(Path),
    /// The text of the program with this name is built into no code.
    #[error("program {0:?}: {1}")]
    Program(Name, BuildFault),
    /// The text of the trace with this name is no trace.
    #[error("trace {0:?}: {1:?}")]
    Trace(Name, TraceFault),
    /// The cases have more than 262,144 acknowledgements.
    #[error("too many acknowledgements")]
    Totals,
    /// There was no memory left.
    #[error("out of memory")]
    NoMemory(NoMemory),
}

impl From<MemberFault> for SceneFault {
    ghost use Rattle.std.specs.Prelude.{◌≡◌};
    ghost use Rattle.scene_faults.specs.MemberFaults.{scene_fault};

    ghost from_gives = { λ fault result. result ≡ scene_fault fault };

    fn from(fault: MemberFault) -> SceneFault {
        match fault {
            MemberFault::Json => SceneFault::Json,
            MemberFault::Missing(path) => SceneFault::Missing(path),
            MemberFault::Wrong(path) => SceneFault::Wrong(path),
            MemberFault::Range(path) => SceneFault::Range(path),
            MemberFault::Trace(name, fault) => SceneFault::Trace(name, fault),
            MemberFault::Totals => SceneFault::Totals,
            MemberFault::NoMemory(error) => SceneFault::NoMemory(error),
        }
    }
}

impl From<AllocError> for SceneFault {
    ghost use Rattle.std.specs.Prelude.{◌≡◌};
    ghost use Rattle.scene_faults.specs.declared.fault.SceneFault.TheVariants as fault;

    ghost from_gives = { λ _ f. f ≡ fault.NoMemory no_memory };

    fn from(error: AllocError) -> SceneFault {
        SceneFault::NoMemory(NoMemory::from(error))
    }
}

impl From<NoMemory> for SceneFault {
    ghost use Rattle.std.specs.Prelude.{◌≡◌};
    ghost use Rattle.scene_faults.specs.declared.fault.SceneFault.TheVariants as fault;

    ghost from_gives = { λ _ f. f ≡ fault.NoMemory no_memory };

    fn from(error: NoMemory) -> SceneFault {
        SceneFault::NoMemory(error)
    }
}

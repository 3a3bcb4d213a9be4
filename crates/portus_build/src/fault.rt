//! Why a text isn't built: the refusal of the first step that refuses it.
ghost use Rattle.std.specs.Prelude.{◌≡◌};
ghost use Rattle.portus_build.specs.StepFaults.{parse_fault, scope_fault, compile_fault};

use ccp_base::NoMemory;
use portus_parser::ParseFault;
use reg_compiler::CompileFault;
use scope_types::ScopeFault;
use thiserror::Error;

/// Why a text is built into no code: the first step that refuses it, with its refusal. Out of memory in any step is
/// `NoMemory`.
#[derive(Clone, Copy, Debug, Error)]
pub enum BuildFault {
    /// The text can't be read.
    #[error("the text can't be read: {0:?}")]
    Parse(ParseFault),
    /// Its forms are no program.
    #[error("the forms are no program: {0:?}")]
    Scope(ScopeFault),
    /// The program isn't compiled.
    #[error("the program isn't compiled: {0:?}")]
    Compile(CompileFault),
    /// There was no memory left.
    #[error("out of memory")]
    NoMemory(NoMemory),
}

impl From<ParseFault> for BuildFault {
    ghost from_gives = { λ fault result. result ≡ parse_fault fault };

    fn from(fault: ParseFault) -> Self {
        match fault {
            ParseFault::NoMemory(error) => BuildFault::NoMemory(error),
            _ => BuildFault::Parse(fault),
        }
    }
}

impl From<ScopeFault> for BuildFault {
    ghost from_gives = { λ fault result. result ≡ scope_fault fault };

    fn from(fault: ScopeFault) -> Self {
        match fault {
            ScopeFault::NoMemory(error) => BuildFault::NoMemory(error),
            _ => BuildFault::Scope(fault),
        }
    }
}

impl From<CompileFault> for BuildFault {
    ghost from_gives = { λ fault result. result ≡ compile_fault fault };

    fn from(fault: CompileFault) -> Self {
        match fault {
            CompileFault::NoMemory(error) => BuildFault::NoMemory(error),
            _ => BuildFault::Compile(fault),
        }
    }
}

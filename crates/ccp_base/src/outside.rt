//! Why calls to the outside fail: out of memory, or a read or a write that failed.
ghost use Rattle.std.specs.Prelude.{◌≡◌, ◌+◌, ◌≤◌, min};
ghost use Rattle.ccp_base.specs.Outside.{Rose, no_memory};
ghost use Rattle.ccp_base.specs.declared.outside.ReadFault.TheVariants as read_fault;

use std::alloc::{AllocError, AllocFailed};

/// Out of memory: a growth was refused. It is made of the errors of std's calls that allocate, and of nothing else, so
/// no call can report it for another reason.
#[derive(Clone, Copy, PartialEq, Eq, Debug)]
pub struct NoMemory(());

impl From<AllocError> for NoMemory {
    ghost from_gives = { λ _ fault. fault ≡ no_memory };

    fn from(_error: AllocError) -> NoMemory {
        NoMemory(())
    }
}

impl<T: Drop> From<AllocFailed<T>> for NoMemory {
    ghost from_gives = { λ _ fault. fault ≡ no_memory };

    fn from(_error: AllocFailed<T>) -> NoMemory {
        NoMemory(())
    }
}

/// A read or a write failed.
#[derive(Clone, Copy, PartialEq, Eq)]
pub struct Failed;

/// Counts a fault, up to 2^64-1.
pub(crate) fn fault(faults: &mut u64) -> Failed
    ensures count { faults.new ≡ min (faults.old + 1) u64.MAX }
    ensures counted { faults.old ≤ faults.new }
    ensures rose { Rose faults.old faults.new }
{
    *faults = faults.saturating_add(1);
    Failed
}

/// Why a source wasn't read to its end.
#[derive(Clone, Copy)]
pub enum ReadFault {
    /// A read failed.
    Read,
    /// The source has more bytes than the limit.
    TooLong,
    NoMemory(NoMemory),
}

impl From<AllocError> for ReadFault {
    ghost from_gives = { λ _ fault. fault ≡ read_fault.NoMemory no_memory };

    fn from(error: AllocError) -> ReadFault {
        ReadFault::NoMemory(NoMemory::from(error))
    }
}

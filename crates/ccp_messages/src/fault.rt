//! Why bytes give no message, and why the reading of a part stops: cut, bad, or out of memory.
ghost use Rattle.std.specs.Prelude.{◌≡◌};
ghost use Rattle.ccp_base.specs.Outside.{no_memory};
ghost use Rattle.ccp_messages.specs.declared.fault.Halt.TheVariants as halt;

use ccp_base::NoMemory;
use reply_frames::{BadKind, Stop};
use std::alloc::{AllocError, AllocFailed};

/// Why bytes don't give a message.
#[derive(Clone, Copy, PartialEq, Eq)]
pub enum DecodeFault {
    /// They are a proper prefix of a frame, which has at least this many bytes: the 16 of a head, or the frame's length
    /// once the head is there.
    More(usize),
    /// Not the start of any frame: the field and the offset of the first bad byte, with which no frame continues.
    Bad(BadKind, usize),
    NoMemory(NoMemory),
}

/// Why a part of a frame isn't read.
#[derive(Clone, Copy)]
pub enum Halt {
    /// The bytes end within it, or a byte is wrong.
    Stopped(Stop),
    NoMemory(NoMemory),
}

impl From<Stop> for Halt {
    ghost from_gives = { λ stop result. result ≡ halt.Stopped stop };

    fn from(stop: Stop) -> Self {
        Halt::Stopped(stop)
    }
}

impl From<NoMemory> for Halt {
    ghost from_gives = { λ _ result. result ≡ halt.NoMemory no_memory };

    fn from(error: NoMemory) -> Self {
        Halt::NoMemory(error)
    }
}

impl From<AllocError> for Halt {
    ghost from_gives = { λ _ result. result ≡ halt.NoMemory no_memory };

    fn from(error: AllocError) -> Self {
        Halt::NoMemory(NoMemory::from(error))
    }
}

impl<T: Drop> From<AllocFailed<T>> for Halt {
    ghost from_gives = { λ _ result. result ≡ halt.NoMemory no_memory };

    fn from(error: AllocFailed<T>) -> Self {
        Halt::NoMemory(NoMemory::from(error))
    }
}

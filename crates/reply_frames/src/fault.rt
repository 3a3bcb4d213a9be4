//! Why bytes give no frame: the bad field, where reading stopped, and how many bytes a frame needs.
/// The field of a frame in which a byte is bad.
#[derive(Clone, Copy, PartialEq, Eq)]
pub enum BadKind {
    /// The kind, or the reason of a Refused frame.
    Kind,
    /// The version.
    Version,
    /// One of the four counts.
    Count,
    /// The length of the whole frame.
    Length,
    /// Whether a register is volatile, or whether there was a timeout.
    Flag,
    /// The operation of an instruction.
    Op,
    /// The class of a value or of a register.
    Class,
    /// The index of a value, or the number of a register.
    Index,
    /// The kind of a fault.
    FaultKind,
}

/// Why the reading of a part of a frame stopped.
#[derive(Clone, Copy)]
pub enum Stop {
    /// The bytes end within the part.
    Cut,
    /// A byte is wrong: its field, and how many bytes there are from it on.
    Bad(BadKind, usize),
}

/// Why bytes don't begin with an Update or a Change.
#[derive(Clone, Copy, PartialEq, Eq)]
pub enum FrameFault {
    /// They are a proper prefix of a frame, which has at least this many bytes: the 16 of a head, or the frame's length
    /// once the head is there.
    More(usize),
    /// Not the start of any frame: the field and the offset of the first bad byte, with which no frame continues.
    Bad(BadKind, usize),
    /// They begin with a whole frame of another kind, which has this number.
    Other(u8),
}

/// The given bytes are fewer than the frame needs, which is this many.
#[derive(Clone, Copy, PartialEq, Eq)]
pub struct Short(pub usize);

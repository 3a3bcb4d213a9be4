//! What the head of a frame says, and what follows from it.

ghost use Rattle.std.specs.Prelude.{◌≡◌, ℕ, ◌+◌, ◌*◌, ◌<◌, ◌≤◌};
ghost use Rattle.reply_frames.specs.FrameBytes.{counts};
ghost use Rattle.reply_frames.specs.Kinds.{kind_number, kind_numbered, version_number, version_of, most_n1};
ghost use Rattle.reply_frames.specs.Kinds.{most_n2, most_n3, most_n4, size_of};

use ccp_base::PRIMITIVES;

/// What a frame is for.
#[derive(Clone, Copy)]
pub enum FrameKind {
    /// A flow begins.
    Create,
    /// A report.
    Measure,
    /// A program for the datapath to keep.
    Install,
    /// Values for the program that runs.
    Update,
    /// A program is to run, with values.
    Change,
    /// An acknowledgement at which a program faulted.
    Fault,
    /// An acknowledgement.
    Ack,
    /// A frame that was refused.
    Refused,
}

/// The versions of frames: in the second one a report has more fields, and counts of acknowledgements are wider.
#[derive(Clone, Copy, PartialEq, Eq)]
pub enum Version {
    One,
    Two,
}

/// The counts of a frame's head; those that its kind doesn't use are 0.
#[derive(Clone, Copy)]
pub struct Counts {
    /// The fields of a Measure, the reports of an Install, the values of an Update or a Change.
    pub n1: u8,
    /// The control variables of an Install.
    pub n2: u8,
    /// The events of an Install.
    pub n3: u16,
    /// The instructions of an Install.
    pub n4: u16,
}

/// The head of a frame; the frame's length follows from it.
#[derive(Clone, Copy)]
pub struct Outline {
    pub kind: FrameKind,
    pub version: Version,
    pub counts: Counts,
    pub flow: u32,
}

/// A head whose counts after the first are 0.
pub fn head_with_count(kind: FrameKind, version: Version, count: u8, flow: u32) -> Outline
    ensures { result ≡ record { kind = kind; version = version; counts = counts count 0 0 0; flow = flow } }
{
    Outline {
        kind,
        version,
        counts: Counts {
            n1: count,
            n2: 0,
            n3: 0,
            n4: 0,
        },
        flow,
    }
}

/// A register of an instruction.
#[derive(Clone, Copy)]
pub struct Register {
    /// From 0 for an immediate value to 6 for a temporary.
    pub class: u8,
    /// The register's number in its class, or the immediate value.
    pub number: u64,
}

/// An instruction.
#[derive(Clone, Copy)]
pub struct Instruction {
    /// The operation's number.
    pub op: u8,
    pub to: Register,
    pub left: Register,
    pub right: Register,
}

/// The number of a kind, from 1 to 8.
pub(crate) fn kind_number(kind: FrameKind) -> u8
    ensures { result ≡ kind_number kind }
{
    match kind {
        FrameKind::Create => 1,
        FrameKind::Measure => 2,
        FrameKind::Install => 3,
        FrameKind::Update => 4,
        FrameKind::Change => 5,
        FrameKind::Fault => 6,
        FrameKind::Ack => 7,
        FrameKind::Refused => 8,
    }
}

/// The number of a version, 1 or 2.
pub(crate) fn version_number(version: Version) -> u8
    ensures { result ≡ version_number version }
{
    match version {
        Version::One => 1,
        Version::Two => 2,
    }
}

/// The kind of a number from 1 to 8.
pub(crate) fn kind_numbered(number: u8) -> FrameKind
    ensures { result ≡ kind_numbered number }
{
    match number {
        1 => FrameKind::Create,
        2 => FrameKind::Measure,
        3 => FrameKind::Install,
        4 => FrameKind::Update,
        5 => FrameKind::Change,
        6 => FrameKind::Fault,
        7 => FrameKind::Ack,
        _ => FrameKind::Refused,
    }
}

/// The version of a number, 1 or 2.
pub(crate) fn version_numbered(number: u8) -> Version
    ensures { result ≡ version_of number }
{
    if number == 1 {
        Version::One
    } else {
        Version::Two
    }
}

/// The most that the first count may be.
pub(crate) fn first_limit(kind: FrameKind, version: Version) -> u8
    ensures { result ≡ most_n1 kind version }
{
    match (kind, version) {
        (FrameKind::Measure | FrameKind::Install, Version::One) => 32,
        (FrameKind::Measure | FrameKind::Install, Version::Two) => 64,
        (FrameKind::Update | FrameKind::Change, _) => 66,
        _ => 0,
    }
}

/// The most control variables and events.
pub(crate) fn install_limit(kind: FrameKind) -> u8
    ensures controls { result ≡ most_n2 kind }
    ensures events { result ≡ most_n3 kind }
{
    if kind == FrameKind::Install { 64 } else { 0 }
}

/// The most instructions.
pub(crate) fn instruction_limit(kind: FrameKind) -> u16
    ensures { result ≡ most_n4 kind }
{
    if kind == FrameKind::Install { 256 } else { 0 }
}

/// The length of the whole frame, in bytes.
pub fn frame_size(kind: FrameKind, version: Version, counts: Counts) -> u32
    ensures { result ≡ size_of kind version counts }
{
    let first = u32::from(counts.n1);
    match (kind, version) {
        (FrameKind::Create, _) => 28,
        (FrameKind::Measure, Version::One) => 56 + 8 * first,
        (FrameKind::Measure, Version::Two) => 64 + 8 * first,
        (FrameKind::Install, _) => {
            20 + 9 * first
                + 9 * u32::from(counts.n2)
                + 4 * u32::from(counts.n3)
                + 28 * u32::from(counts.n4)
        }
        (FrameKind::Update, _) => 16 + 10 * first,
        (FrameKind::Change, _) => 20 + 10 * first,
        (FrameKind::Fault, Version::One) => 47,
        (FrameKind::Fault, Version::Two) => 51,
        (FrameKind::Ack, _) => 16 + 8 * PRIMITIVES,
        (FrameKind::Refused, _) => 21,
    }
}

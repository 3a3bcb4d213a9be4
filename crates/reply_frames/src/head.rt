//! The head of a frame, read from the front of bytes.

ghost use Rattle.std.specs.Prelude.{◌≡◌, ℕ, ◌≤◌, IfOk};
ghost use Rattle.reply_frames.specs.Parts.{Gives};
ghost use Rattle.reply_frames.specs.Kinds.{most_n1};
ghost use Rattle.reply_frames.specs.Frames.{counts_at, outline_at};

use crate::fault::{BadKind, Stop};
use crate::outline::{
    Counts, FrameKind, Outline, Version, first_limit, frame_size, install_limit, instruction_limit,
    kind_numbered, version_numbered,
};
use crate::parts::{byte, exact_number, limited_number, number32};

/// The counts of a head, and the bytes after them.
#[tactic(auto, unfolding(crate::specs::Frames::counts_at))]
fn counts(bytes: &[u8], kind: FrameKind, version: Version) -> Result<(Counts, &[u8]), Stop>
    ensures read { Gives (λ x. (x.0, x.1.now)) result (counts_at kind version bytes.now) }
    ensures within { IfOk result (λ x. x.0.n1 ≤ most_n1 kind version) }
{
    let most = install_limit(kind);
    let (n1, rest) = byte(
        bytes,
        BadKind::Count,
        0,
        u64::from(first_limit(kind, version)),
    )?;
    let (n2, rest) = byte(rest, BadKind::Count, 0, u64::from(most))?;
    let (n3, rest) = limited_number(rest, BadKind::Count, 2, u64::from(most))?;
    let (n4, rest) = limited_number(rest, BadKind::Count, 2, u64::from(instruction_limit(kind)))?;
    let counts = Counts {
        n1,
        n2,
        n3: n3 as u16,
        n4: n4 as u16,
    };
    Ok((counts, rest))
}

/// The head of a frame, whose counts are within the bounds of its kind and give its length, and the bytes after it.
#[tactic(auto, unfolding(crate::specs::Frames::outline_at))]
pub fn outline(bytes: &[u8]) -> Result<(Outline, &[u8]), Stop>
    ensures read { Gives (λ x. (x.0, x.1.now)) result (outline_at bytes.now) }
    ensures within { IfOk result (λ x. x.0.counts.n1 ≤ most_n1 x.0.kind x.0.version) }
{
    let (kind, rest) = byte(bytes, BadKind::Kind, 1, 8)?;
    let kind = kind_numbered(kind);
    let (version, rest) = byte(rest, BadKind::Version, 1, 2)?;
    let version = version_numbered(version);
    let (counts, rest) = counts(rest, kind, version)?;
    let (flow, rest) = number32(rest)?;
    let (_, rest) = exact_number(rest, BadKind::Length, 4, frame_size(kind, version, counts))?;
    let head = Outline {
        kind,
        version,
        counts,
        flow,
    };
    Ok((head, rest))
}

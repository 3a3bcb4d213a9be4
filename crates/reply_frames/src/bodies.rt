//! The bodies of frames, read from the front of bytes. Each reader gives what it read and the bytes after it.

ghost use Rattle.std.specs.Prelude.{◌≡◌, ℕ, ◌≤◌, length, IfOk, OnOk};
ghost use Rattle.std.specs.Int.{w64};
ghost use Rattle.ccp_base.specs.Acknowledgement.{flag_number};
ghost use Rattle.ccp_base.specs.Limits.{most_fields};
ghost use Rattle.reply_frames.specs.Kinds.{most_n1};
ghost use Rattle.reply_frames.specs.Parts.{Gives, passed, number_at, repeated_at};
ghost use Rattle.reply_frames.specs.Frames.{Create, Refused, count_at, create_at, measure_at};
ghost use Rattle.reply_frames.specs.Frames.{fault_body_at, ack_body_at, refused_at, body_at};
ghost use Rattle.reply_frames.specs.Frames as body;
ghost use Rattle.reply_frames.specs.Bodies.{report_body, notice_body, ack_body};

use crate::fault::{BadKind, Stop};
use crate::fault_kind::fault_numbered;
use crate::install_parts::install;
use crate::outline::{FrameKind, Outline, Version};
use crate::parts::{byte, limited_number, number16, number32, number64};
use crate::values::{change, update};
use ccp_base::{Ack, Fields, Notice, PRIMITIVES, Report, Values, ack_of};

/// The greatest reason of a Refused.
pub const MOST_REASON: u8 = 9;

/// Reads `count` numbers of eight bytes into `numbers`, replacing what it has, and gives the bytes after them.
fn numbers<'a>(bytes: &'a [u8], count: u8, numbers: &mut Values) -> Result<&'a [u8], Stop>
    requires { count ≤ most_fields }
    ensures read { Gives (λ rest. (numbers.new, rest.now)) result (repeated_at (number_at w64) count bytes.now) }
    ensures counted { OnOk result (length numbers.new ≡ count) }
{
    *numbers = Values::new();
    let mut rest = bytes;
    for _ in 0..count {
        let (number, after) = number64(rest)?;
        numbers.push(number);
        rest = after;
    }
    Ok(rest)
}

/// A count of acknowledgements, which is wider in version 2.
fn count(bytes: &[u8], version: Version) -> Result<(u64, &[u8]), Stop>
    ensures { Gives (λ x. (x.0, x.1.now)) result (count_at version bytes.now) }
{
    match version {
        Version::One => {
            let (count, rest) = number32(bytes)?;
            Ok((u64::from(count), rest))
        }
        Version::Two => number64(bytes),
    }
}

/// The window and the segments' size of a Create.
#[tactic(auto, unfolding(crate::specs::Frames::create_at))]
pub fn create(bytes: &[u8]) -> Result<((u64, u32), &[u8]), Stop>
    ensures { Gives (λ x. (Create x.0.0 x.0.1, x.1.now)) result (create_at bytes.now) }
{
    let (cwnd, rest) = number64(bytes)?;
    let (mss, rest) = number32(rest)?;
    Ok(((cwnd, mss), rest))
}

/// The report of a Measure on a flow.
#[tactic(auto, unfolding(crate::specs::Frames::measure_at))]
pub fn measure(
    bytes: &[u8],
    version: Version,
    flow: u32,
    fields: u8,
) -> Result<(Report, &[u8]), Stop>
    requires { fields ≤ most_fields }
    ensures read { Gives (λ x. (report_body x.0, x.1.now)) result (measure_at version fields bytes.now) }
    ensures flow { IfOk result (λ x. x.0.flow ≡ flow) }
{
    let (program, rest) = number32(bytes)?;
    let (epoch, rest) = number32(rest)?;
    let (first, rest) = count(rest, version)?;
    let (end, rest) = count(rest, version)?;
    let (now, rest) = number64(rest)?;
    let (cwnd, rest) = number64(rest)?;
    let (rate, rest) = number64(rest)?;
    let mut values = Values::new();
    let rest = numbers(rest, fields, &mut values)?;
    let report = Report {
        flow,
        program,
        epoch,
        first,
        end,
        now,
        cwnd,
        rate,
        fields: values,
    };
    Ok((report, rest))
}

/// The notice of a Fault on a flow.
#[tactic(auto, unfolding(crate::specs::Frames::fault_body_at))]
pub fn fault(bytes: &[u8], version: Version, flow: u32) -> Result<(Notice, &[u8]), Stop>
    ensures read { Gives (λ x. (notice_body x.0, x.1.now)) result (fault_body_at version bytes.now) }
    ensures flow { IfOk result (λ x. x.0.flow ≡ flow) }
{
    let (program, rest) = number32(bytes)?;
    let (epoch, rest) = number32(rest)?;
    let (at, rest) = count(rest, version)?;
    let (kind, rest) = byte(rest, BadKind::FaultKind, 0, 2)?;
    let kind = fault_numbered(kind);
    let (index, rest) = number16(rest)?;
    let (now, rest) = number64(rest)?;
    let (cwnd, rest) = number64(rest)?;
    let notice = Notice {
        flow,
        program,
        epoch,
        at,
        kind,
        index,
        now,
        cwnd,
    };
    Ok((notice, rest))
}

/// The acknowledgement with these plain numbers; `was_timeout` is 1 if there was a timeout, else 0.
fn ack_from_plain(numbers: &Values, was_timeout: u64) -> Ack
    requires plain { length numbers.now ≡ flag_number }
    requires flag { was_timeout ≤ 1 }
    ensures { ack_body result ≡ body.Ack numbers.now was_timeout }
{
    let mut primitives = *numbers;
    primitives.push(was_timeout);
    ack_of(primitives.as_slice())
}

/// The acknowledgement of an Ack.
#[tactic(auto, unfolding(crate::specs::Frames::ack_body_at))]
pub fn ack(bytes: &[u8]) -> Result<(Ack, &[u8]), Stop>
    ensures { Gives (λ x. (ack_body x.0, x.1.now)) result (ack_body_at bytes.now) }
{
    let mut plain = Values::new();
    let rest = numbers(bytes, PRIMITIVES as u8 - 1, &mut plain)?;
    let (was_timeout, rest) = limited_number(rest, BadKind::Flag, 8, 1)?;
    Ok((ack_from_plain(&plain, was_timeout), rest))
}

/// The reason and the index of a Refused.
#[tactic(auto, unfolding(crate::specs::Frames::refused_at))]
pub fn refusal(bytes: &[u8]) -> Result<((u8, u32), &[u8]), Stop>
    ensures { Gives (λ x. (Refused x.0.0 x.0.1, x.1.now)) result (refused_at bytes.now) }
{
    let (reason, rest) = byte(bytes, BadKind::Kind, 1, u64::from(MOST_REASON))?;
    let (index, rest) = number32(rest)?;
    Ok(((reason, index), rest))
}

/// The bytes after the body of a frame of any kind, which is skipped.
pub(crate) fn skip_body(bytes: &[u8], head: Outline) -> Result<&[u8], Stop>
    requires { head.counts.n1 ≤ most_n1 head.kind head.version }
    ensures { Gives (λ rest. rest.now) result (passed (body_at head.kind head.version head.counts bytes.now)) }
{
    let count = head.counts.n1;
    match head.kind {
        FrameKind::Create => {
            let (_, rest) = create(bytes)?;
            Ok(rest)
        }
        FrameKind::Measure => match measure(bytes, head.version, head.flow, count) {
            Ok((_, rest)) => Ok(rest),
            Err(stop) => Err(stop),
        },
        FrameKind::Install => install(bytes, head.counts),
        FrameKind::Update => update(bytes, count, &mut Fields::new()),
        FrameKind::Change => {
            let (_, rest) = change(bytes, count, &mut Fields::new())?;
            Ok(rest)
        }
        FrameKind::Fault => {
            let (_, rest) = fault(bytes, head.version, head.flow)?;
            Ok(rest)
        }
        FrameKind::Ack => {
            let (_, rest) = ack(bytes)?;
            Ok(rest)
        }
        FrameKind::Refused => {
            let (_, rest) = refusal(bytes)?;
            Ok(rest)
        }
    }
}

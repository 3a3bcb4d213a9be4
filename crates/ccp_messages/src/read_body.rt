//! Messages, read from the bodies of their frames.

ghost use Rattle.std.specs.Prelude.{◌≡◌, ◌≤◌, Err};
ghost use Rattle.ccp_base.specs.Outside.{no_memory};
ghost use Rattle.ccp_base.specs.Limits.{most_fields, most_pairs};
ghost use Rattle.reply_frames.specs.Kinds.{most_n1};
ghost use Rattle.reply_frames.specs.Parts.{Gives};
ghost use Rattle.reply_frames.specs.Frames.{create_at, measure_at, update_at, change_at};
ghost use Rattle.reply_frames.specs.Frames.{fault_body_at, ack_body_at, refused_at};
ghost use Rattle.ccp_messages.specs.Messages.{message_of};
ghost use Rattle.ccp_messages.specs.Decoding.{ReturnsReading, made, message_at};

use crate::fault::Halt;
use crate::message::Message;
use crate::read_code::install;
use crate::reason::Reason;
use ccp_base::Fields;
use reply_frames::{FrameKind, Outline, Stop, Version, bodies};
use std::alloc::Global;

/// A Create from its body, and the bytes after it.
fn create(bytes: &[u8], flow: u32) -> Result<(Message, &[u8]), Stop>
    ensures { Gives (λ x. (x.0, x.1.now)) result (made (message_of flow) (create_at bytes.now)) }
{
    let ((cwnd, mss), rest) = bodies::create(bytes)?;
    Ok((Message::Create { flow, mss, cwnd }, rest))
}

/// A Measure from its body, and the bytes after it.
fn measure(bytes: &[u8], version: Version, flow: u32, fields: u8) -> Result<(Message, &[u8]), Stop>
    requires { fields ≤ most_fields }
    ensures { Gives (λ x. (x.0, x.1.now)) result (made (message_of flow) (measure_at version fields bytes.now)) }
{
    match bodies::measure(bytes, version, flow, fields) {
        Ok((report, rest)) => Ok((Message::Measure(report), rest)),
        Err(stop) => Err(stop),
    }
}

/// An Update from its body, and the bytes after it.
fn update(bytes: &[u8], flow: u32, count: u8) -> Result<(Message, &[u8]), Stop>
    requires { count ≤ most_pairs }
    ensures { Gives (λ x. (x.0, x.1.now)) result (made (message_of flow) (update_at count bytes.now)) }
{
    let mut values = Fields::new();
    let rest = reply_frames::values::update(bytes, count, &mut values)?;
    Ok((Message::Update { flow, values }, rest))
}

/// A Change from its body, and the bytes after it.
fn change(bytes: &[u8], flow: u32, count: u8) -> Result<(Message, &[u8]), Stop>
    requires { count ≤ most_pairs }
    ensures { Gives (λ x. (x.0, x.1.now)) result (made (message_of flow) (change_at count bytes.now)) }
{
    let mut values = Fields::new();
    let (program, rest) = reply_frames::values::change(bytes, count, &mut values)?;
    Ok((
        Message::Change {
            flow,
            program,
            values,
        },
        rest,
    ))
}

/// A Fault from its body, and the bytes after it.
fn fault(bytes: &[u8], version: Version, flow: u32) -> Result<(Message, &[u8]), Stop>
    ensures { Gives (λ x. (x.0, x.1.now)) result (made (message_of flow) (fault_body_at version bytes.now)) }
{
    let (notice, rest) = bodies::fault(bytes, version, flow)?;
    Ok((Message::Fault(notice), rest))
}

/// An Ack from its body, and the bytes after it.
fn ack(bytes: &[u8], flow: u32) -> Result<(Message, &[u8]), Stop>
    ensures { Gives (λ x. (x.0, x.1.now)) result (made (message_of flow) (ack_body_at bytes.now)) }
{
    let (ack, rest) = bodies::ack(bytes)?;
    Ok((Message::Ack { flow, ack }, rest))
}

/// A Refused from its body, and the bytes after it.
fn refusal(bytes: &[u8], flow: u32) -> Result<(Message, &[u8]), Stop>
    ensures { Gives (λ x. (x.0, x.1.now)) result (made (message_of flow) (refused_at bytes.now)) }
{
    let ((number, index), rest) = bodies::refusal(bytes)?;
    let Some(reason) = Reason::of_number(number) else {
        unreachable!()
    };
    Ok((
        Message::Refused {
            flow,
            reason,
            index,
        },
        rest,
    ))
}

/// The message of a frame with this head, from its body, and the bytes after it.
pub fn body(alloc: Global, bytes: &[u8], head: Outline) -> Result<(Message, &[u8]), Halt>
    requires { head.counts.n1 ≤ most_n1 head.kind head.version }
    ensures read { ReturnsReading (λ x. (x.0, x.1.now)) result (message_at head bytes.now) }
    ensures memory { result ≡ Err (Halt.NoMemory no_memory) → head.kind ≡ FrameKind.Install }
{
    let first = head.counts.n1;
    match head.kind {
        FrameKind::Create => Ok(create(bytes, head.flow)?),
        FrameKind::Measure => Ok(measure(bytes, head.version, head.flow, first)?),
        FrameKind::Install => install(alloc, bytes, head.flow, head.counts),
        FrameKind::Update => Ok(update(bytes, head.flow, first)?),
        FrameKind::Change => Ok(change(bytes, head.flow, first)?),
        FrameKind::Fault => Ok(fault(bytes, head.version, head.flow)?),
        FrameKind::Ack => Ok(ack(bytes, head.flow)?),
        FrameKind::Refused => Ok(refusal(bytes, head.flow)?),
    }
}

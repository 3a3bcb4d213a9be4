//! How a message is written as its one frame of a version, into the caller's bytes.
ghost use Rattle.std.specs.Prelude.{◌≡◌, ◌↔◌, ◌^◌, ◌<◌, ◌≤◌, length, take, IfOk, IfErr, OnErr, OnOk, IsErr};
ghost use Rattle.ccp_base.specs.Limits.{most_fields, most_controls, most_blocks, most_instrs};
ghost use Rattle.reply_frames.specs.FrameBytes.{outline_of, body_bytes};
ghost use Rattle.reply_frames.specs.Writing.{Wrote};
ghost use Rattle.ccp_messages.specs.CodeParts.{code_counts};
ghost use Rattle.ccp_messages.specs.Laws.{HasOneFrame};
ghost use Rattle.ccp_messages.specs.Messages.{Meets, message_flow, message_body, size_in, frame_bytes};
ghost use Rattle.ccp_messages.specs.Messages.{WroteFrame, IsFrameOf, IsTypedBody, IsTyped};

use crate::encode_body::{
    put_ack, put_change, put_create, put_fault, put_measure, put_refused, put_values,
};
use crate::encode_code::put_code;
use crate::message::Message;
use reg_code::Code;
use reply_frames::encode::{HEAD, put_outline};
use reply_frames::outline::{frame_size, head_with_count};
use reply_frames::{Counts, FrameKind, Outline, Short, Version};

/// The counts of a code.
fn code_counts(code: &Code) -> Counts
    requires reports { length code.now.reports ≤ most_fields }
    requires controls { length code.now.controls ≤ most_controls }
    requires events { length code.now.events ≤ most_blocks }
    requires instrs { length code.now.instrs ≤ most_instrs }
    ensures { result ≡ code_counts code.now }
{
    Counts {
        n1: code.reports().len() as u8,
        n2: code.controls().len() as u8,
        n3: code.events().len() as u16,
        n4: code.instrs().len() as u16,
    }
}

/// The head of a message's frame.
fn head_of(message: &Message, version: Version) -> Outline
    requires { Meets version message.now }
    ensures head { result ≡ outline_of version (message_flow message.now) (message_body message.now) }
    ensures typed { message_flow message.now < 2 ^ 32 }
{
    match message {
        Message::Create { flow, .. } => head_with_count(FrameKind::Create, version, 0, *flow),
        Message::Measure(report) => {
            let fields = report.fields.len() as u8;
            head_with_count(FrameKind::Measure, version, fields, report.flow)
        }
        Message::Install { flow, code, .. } => Outline {
            kind: FrameKind::Install,
            version,
            counts: code_counts(code),
            flow: *flow,
        },
        Message::Update { flow, values } => {
            head_with_count(FrameKind::Update, version, values.len() as u8, *flow)
        }
        Message::Change { flow, values, .. } => {
            head_with_count(FrameKind::Change, version, values.len() as u8, *flow)
        }
        Message::Fault(notice) => head_with_count(FrameKind::Fault, version, 0, notice.flow),
        Message::Ack { flow, .. } => head_with_count(FrameKind::Ack, version, 0, *flow),
        Message::Refused { flow, .. } => head_with_count(FrameKind::Refused, version, 0, *flow),
    }
}

/// Puts the body of a message's frame after its head.
fn put_body(out: &mut [u8], message: &Message, version: Version) -> usize
    requires room { size_in version message.now ≤ length out.old }
    requires meets { Meets version message.now }
    ensures wrote { Wrote 16 (body_bytes version (message_body message.now)) out.old out.new result }
    ensures typed { IsTypedBody message.now }
{
    match message {
        Message::Create { mss, cwnd, .. } => put_create(out, HEAD, *cwnd, *mss),
        Message::Measure(report) => put_measure(out, HEAD, version, *report),
        Message::Install { program, code, .. } => put_code(out, HEAD, *program, code),
        Message::Update { values, .. } => put_values(out, HEAD, values),
        Message::Change {
            program,
            values,
            ..
        } => put_change(out, HEAD, *program, values),
        Message::Fault(notice) => put_fault(out, HEAD, version, *notice),
        Message::Ack { ack, .. } => put_ack(out, HEAD, *ack),
        Message::Refused { reason, index, .. } => put_refused(out, HEAD, *reason, *index),
    }
}

/// Writes the message's one frame of this version at the front of `out`, and gives its length. Short exactly if
/// `out` is shorter than that; then nothing is written. An Install's code has at most 64 reports, 64 controls, 64
/// events and 256 instructions; controls that are written to have numbers below 64. In version 1 the numbers of
/// acknowledgements are below 2^32, and there are at most 32 fields or reports.
pub fn encode_into(message: &Message, version: Version, out: &mut [u8]) -> Result<usize, Short>
    requires { Meets version message.now }
    ensures ok { IfOk result (WroteFrame version message.now out.old out.new) }
    ensures frame { IfOk result (λ size. IsFrameOf message.now version (take size out.new)) }
    ensures typed { OnOk result (IsTyped message.now) }
    ensures one_frame { OnOk result (HasOneFrame version message.now) }
    ensures short { IfErr result (λ short. short ≡ record { 0 = length (frame_bytes version message.now) }) }
    ensures only_short { IsErr result ↔ (length out.old < length (frame_bytes version message.now)) }
    ensures unchanged { OnErr result (out.new ≡ out.old) }
{
    let head = head_of(message, version);
    let size = frame_size(head.kind, head.version, head.counts) as usize;
    if out.len() < size {
        return Err(Short(size));
    }
    put_outline(out, head);
    Ok(put_body(out, message, version))
}

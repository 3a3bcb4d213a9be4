//! The bodies of frames, put at a place of bytes. Each call gives the place after what it put.

ghost use Rattle.std.specs.Prelude.{◌≡◌, ◌+◌, ◌-◌, ◌*◌, ◌^◌, ◌<◌, ◌≤◌, length};
ghost use Rattle.ccp_base.specs.Limits.{primitive_count};
ghost use Rattle.reply_frames.specs.declared.outline.Version.TheVariants.{One};
ghost use Rattle.reply_frames.specs.Frames as body;
ghost use Rattle.reply_frames.specs.Bodies.{ack_body};
ghost use Rattle.reply_frames.specs.ValueBytes.{values_bytes};
ghost use Rattle.reply_frames.specs.FrameBytes.{count_width, body_bytes};
ghost use Rattle.reply_frames.specs.Writing.{Wrote};
ghost use Rattle.ccp_messages.specs.declared.message.Message.TheVariants as message;
ghost use Rattle.ccp_messages.specs.Messages.{IsShortCount, message_body, AreTypedPairs};
ghost use Rattle.ccp_messages.specs.Messages.{IsTypedReport, IsTypedNotice, IsTypedAck};
ghost use Rattle.ccp_messages.specs.Reasons.{number_of_reason};

use crate::reason::Reason;
use crate::writing::{put_count, put_numbers, put8, put16, put32, put64};
use ccp_base::{Ack, Fields, Notice, PRIMITIVES, Report, bool_number, primitives};
use reply_frames::Version;
use reply_frames::fault_kind::fault_number;

/// Puts the body of a Create.
pub fn put_create(out: &mut [u8], at: usize, cwnd: u64, mss: u32) -> usize
    requires { at + 12 ≤ length out.old }
    ensures wrote { Wrote at (body_bytes One (body.Create cwnd mss)) out.old out.new result }
    ensures typed { (mss < 2 ^ 32) × (cwnd < 2 ^ 64) }
{
    let end = put64(out, at, cwnd);
    put32(out, end, mss)
}

/// Puts the body of a Measure.
pub fn put_measure(out: &mut [u8], at: usize, version: Version, report: Report) -> usize
    requires room { at + (32 + 2 * count_width version + 8 * length report.fields) ≤ length out.old }
    requires first { IsShortCount version report.first }
    requires end { IsShortCount version report.end }
    ensures typed { IsTypedReport report }
    ensures wrote { Wrote at (body_bytes version (message_body (message.Measure report))) out.old out.new result }
{
    let end = put32(out, at, report.program);
    let end = put32(out, end, report.epoch);
    let end = put_count(out, end, version, report.first);
    let end = put_count(out, end, version, report.end);
    let end = put64(out, end, report.now);
    let end = put64(out, end, report.cwnd);
    let end = put64(out, end, report.rate);
    put_numbers(out, end, report.fields.as_slice())
}

/// Puts values, which are all of an Update's body.
pub fn put_values(out: &mut [u8], at: usize, values: &Fields) -> usize
    requires { at + 10 * length values.now ≤ length out.old }
    ensures wrote { Wrote at (values_bytes values.now) out.old out.new result }
    ensures typed { AreTypedPairs values.now }
{
    reply_frames::encode::put_values(out, at, values);
    at + 10 * values.len() as usize
}

/// Puts the body of a Change.
pub fn put_change(out: &mut [u8], at: usize, program: u32, values: &Fields) -> usize
    requires { at + (4 + 10 * length values.now) ≤ length out.old }
    ensures wrote { Wrote at (body_bytes One (body.Change program values.now)) out.old out.new result }
    ensures typed { (program < 2 ^ 32) × AreTypedPairs values.now }
{
    let end = put32(out, at, program);
    put_values(out, end, values)
}

/// Puts the body of a Fault.
pub fn put_fault(out: &mut [u8], at: usize, version: Version, notice: Notice) -> usize
    requires room { at + (27 + count_width version) ≤ length out.old }
    requires at { IsShortCount version notice.at }
    ensures typed { IsTypedNotice notice }
    ensures wrote { Wrote at (body_bytes version (message_body (message.Fault notice))) out.old out.new result }
{
    let end = put32(out, at, notice.program);
    let end = put32(out, end, notice.epoch);
    let end = put_count(out, end, version, notice.at);
    let end = put8(out, end, fault_number(notice.kind));
    let end = put16(out, end, notice.index);
    let end = put64(out, end, notice.now);
    put64(out, end, notice.cwnd)
}

/// Puts the body of an Ack.
pub fn put_ack(out: &mut [u8], at: usize, ack: Ack) -> usize
    requires { at + 8 * primitive_count ≤ length out.old }
    ensures typed { IsTypedAck ack }
    ensures wrote { Wrote at (body_bytes One (ack_body ack)) out.old out.new result }
{
    let numbers = primitives(&ack);
    let end = put_numbers(out, at, &numbers[..PRIMITIVES as usize - 1]);
    put64(out, end, bool_number(ack.was_timeout))
}

/// Puts the body of a Refused.
pub fn put_refused(out: &mut [u8], at: usize, reason: Reason, index: u32) -> usize
    requires { at + 5 ≤ length out.old }
    ensures wrote { Wrote at (body_bytes One (body.Refused (number_of_reason reason) index)) out.old out.new result }
    ensures typed { index < 2 ^ 32 }
{
    let end = put8(out, at, reason.number());
    put32(out, end, index)
}

//! The next frame of an input, answered.

ghost use Rattle.std.specs.Prelude.{◌≡◌, ◌≤◌, length, None};
ghost use Rattle.feed_core.specs.FeedTurns.{without_frame, IsTurn, KeepsFinished};

use crate::ack_frame::{ACK_BYTES, ack_frame};
use crate::answerer::Answerer;
use crate::answering::{Unanswered, answer, answer_ack};
use crate::duplex::Duplex;
use ccp_base::NoMemory;
use ccp_messages::{BadKind, DecodeFault, Message, decode};
use reply_frames::Version;
use std::alloc::Global;

/// The outcome of the bytes after the answered frames.
#[derive(Clone, Copy)]
pub enum Turn {
    /// They began with a frame of this length, and it was answered.
    Answered(usize),
    /// They are a proper prefix of a frame.
    Part,
    /// They aren't the start of any frame: the field of the first bad byte, and its offset.
    Bad(BadKind, usize),
    /// A write failed; a front of the answer was written.
    WriteFailed,
    NoMemory(NoMemory),
}

/// The turn of bytes that don't begin with a frame.
fn without_frame(fault: DecodeFault) -> Turn
    ensures { result ≡ without_frame fault }
{
    match fault {
        DecodeFault::More(_) => Turn::Part,
        DecodeFault::Bad(field, offset) => Turn::Bad(field, offset),
        DecodeFault::NoMemory(error) => Turn::NoMemory(error),
    }
}

/// Answers the frame that the bytes begin with. The answer to an acknowledgement is made in `answer`, which is `None`
/// before and afterwards.
pub fn next_frame<A: Answerer, D: Duplex>(
    alloc: Global,
    answerer: &mut A,
    bytes: &[u8],
    answer: &mut Option<(Message, Version)>,
    duplex: &mut D,
) -> Turn
    requires room { length bytes.now ≤ A.room answerer.old }
    requires none { answer.old ≡ None }
    ensures none { answer.new ≡ None }
    ensures follows { D.Follows duplex.old duplex.new }
    ensures remaining { D.remaining duplex.new ≡ D.remaining duplex.old }
    ensures read_faults { D.read_faults duplex.new ≡ D.read_faults duplex.old }
    ensures counted { D.write_faults duplex.old ≤ D.write_faults duplex.new }
    ensures turn { IsTurn A.answer_of A.room A.Takes (D.write_faults duplex.old) (D.write_faults duplex.new)
        (D.is_finished duplex.new) (D.written duplex.old) (D.written duplex.new) answerer.old answerer.new bytes.now
        result }
    ensures kept { KeepsFinished (D.is_finished duplex.old) (D.is_finished duplex.new) result }
{
    match ack_frame(bytes) {
        Some(frame) => match answer_ack(answerer, &frame, answer, duplex) {
            Ok(()) => Turn::Answered(ACK_BYTES),
            Err(_) => Turn::WriteFailed,
        },
        None => other_frame(alloc, answerer, bytes, duplex),
    }
}

/// Answers the frame of any kind that the bytes begin with.
#[inline(never)]
fn other_frame<A: Answerer, D: Duplex>(
    alloc: Global,
    answerer: &mut A,
    bytes: &[u8],
    duplex: &mut D,
) -> Turn
    requires room { length bytes.now ≤ A.room answerer.old }
    ensures follows { D.Follows duplex.old duplex.new }
    ensures remaining { D.remaining duplex.new ≡ D.remaining duplex.old }
    ensures read_faults { D.read_faults duplex.new ≡ D.read_faults duplex.old }
    ensures counted { D.write_faults duplex.old ≤ D.write_faults duplex.new }
    ensures turn { IsTurn A.answer_of A.room A.Takes (D.write_faults duplex.old) (D.write_faults duplex.new)
        (D.is_finished duplex.new) (D.written duplex.old) (D.written duplex.new) answerer.old answerer.new bytes.now
        result }
    ensures kept { KeepsFinished (D.is_finished duplex.old) (D.is_finished duplex.new) result }
{
    match decode(alloc, bytes) {
        Ok((message, version, used)) => match answer(alloc, answerer, message, version, duplex) {
            Ok(()) => Turn::Answered(used),
            Err(Unanswered::Write) => Turn::WriteFailed,
            Err(Unanswered::NoMemory(error)) => Turn::NoMemory(error),
        },
        Err(fault) => without_frame(fault),
    }
}

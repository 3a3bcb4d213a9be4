//! Answers one frame of an input and writes the answer.

ghost use Rattle.std.specs.Prelude.{◌≡◌, ◌+◌, ◌<◌, ◌≤◌, length, None, OnOk, IfErr, Err};
ghost use Rattle.ccp_base.specs.Outside.{Rose, Appends, AppendsPrefix, no_memory};
ghost use Rattle.feed_core.specs.FeedHolds.{longest_answer, HasShortFrame};
ghost use Rattle.ccp_messages.specs.Messages.{Meets, frame_bytes};
ghost use Rattle.feed_core.specs.FeedBytes.{answer_bytes, answer_to};
ghost use Rattle.feed_core.specs.FeedEnds.{AreHandedOn};
ghost use Rattle.feed_core.specs.FeedStops.{StopsAnswer};

use crate::ack_frame::AckFrame;
use crate::answerer::Answerer;
use crate::duplex::{Duplex, hand_over};
use ccp_base::NoMemory;
use ccp_messages::{Message, encode_into};
use reply_frames::Version;
use std::alloc::Global;

/// The bytes of the longest answer.
const LONGEST: usize = 576;

/// Why an answer wasn't written.
#[derive(Clone, Copy)]
pub enum Unanswered {
    /// A write failed; a front of the answer was written.
    Write,
    NoMemory(NoMemory),
}

impl From<NoMemory> for Unanswered {
    ghost use Rattle.std.specs.Prelude.{◌≡◌};
    ghost use Rattle.feed_core.specs.declared.answering.Unanswered.TheVariants as unanswered;

    ghost from_gives = { λ _ e. e ≡ unanswered.NoMemory no_memory };

    fn from(error: NoMemory) -> Unanswered {
        Unanswered::NoMemory(error)
    }
}

/// Answers a message, and writes the answer and hands it on.
pub fn answer<A: Answerer, D: Duplex>(
    alloc: Global,
    answerer: &mut A,
    message: Message,
    version: Version,
    duplex: &mut D,
) -> Result<(), Unanswered>
    requires room { 0 < A.room answerer.old }
    ensures state { OnOk result (answerer.new ≡ (A.answer_of answerer.old message version).1) }
    ensures one { OnOk result (A.room answerer.old ≤ A.room answerer.new + 1) }
    ensures written { OnOk result (Appends (D.written duplex.old) (D.written duplex.new)
        (answer_to A.answer_of answerer.old message version)) }
    ensures handed { OnOk result
        (AreHandedOn (answer_to A.answer_of answerer.old message version) (D.is_finished duplex.new)) }
    ensures kept { OnOk result (D.is_finished duplex.old → D.is_finished duplex.new) }
    ensures follows { D.Follows duplex.old duplex.new }
    ensures remaining { D.remaining duplex.new ≡ D.remaining duplex.old }
    ensures read_faults { D.read_faults duplex.new ≡ D.read_faults duplex.old }
    ensures counted { D.write_faults duplex.old ≤ D.write_faults duplex.new }
    ensures err { IfErr result (StopsAnswer (D.write_faults duplex.old) (D.write_faults duplex.new)
        (D.written duplex.old) (D.written duplex.new) (answer_to A.answer_of answerer.old message version)) }
    ensures memory { result ≡ Err (Unanswered.NoMemory no_memory) → A.Takes answerer.old message }
    ensures untouched { result ≡ Err (Unanswered.NoMemory no_memory) → duplex.new ≡ duplex.old }
{
    match answerer.answer(alloc, message, version)? {
        None => Ok(()),
        Some((message, version)) => write(duplex, &message, version),
    }
}

// A new `None` clears a kilobyte, and most acknowledgements have no answer: so the caller keeps one for all frames.
/// Answers an acknowledgement, and writes the answer, if there is one, and hands it on. The answer is made in `answer`,
/// which is `None` before and afterwards.
pub fn answer_ack<A: Answerer, D: Duplex>(
    answerer: &mut A,
    frame: &AckFrame,
    answer: &mut Option<(Message, Version)>,
    duplex: &mut D,
) -> Result<(), Unanswered>
    requires room { 0 < A.room answerer.old }
    requires none { answer.old ≡ None }
    ensures none { answer.new ≡ None }
    ensures state { OnOk result (answerer.new
        ≡ (A.answer_of answerer.old (Message.Ack frame.now.flow frame.now.ack) frame.now.version).1) }
    ensures one { OnOk result (A.room answerer.old ≤ A.room answerer.new + 1) }
    ensures written { OnOk result (Appends (D.written duplex.old) (D.written duplex.new)
        (answer_to A.answer_of answerer.old (Message.Ack frame.now.flow frame.now.ack) frame.now.version)) }
    ensures handed { OnOk result
        (AreHandedOn (answer_to A.answer_of answerer.old (Message.Ack frame.now.flow frame.now.ack) frame.now.version)
        (D.is_finished duplex.new)) }
    ensures kept { OnOk result (D.is_finished duplex.old → D.is_finished duplex.new) }
    ensures follows { D.Follows duplex.old duplex.new }
    ensures remaining { D.remaining duplex.new ≡ D.remaining duplex.old }
    ensures read_faults { D.read_faults duplex.new ≡ D.read_faults duplex.old }
    ensures counted { D.write_faults duplex.old ≤ D.write_faults duplex.new }
    ensures err { IfErr result (StopsAnswer (D.write_faults duplex.old) (D.write_faults duplex.new)
        (D.written duplex.old) (D.written duplex.new)
        (answer_to A.answer_of answerer.old (Message.Ack frame.now.flow frame.now.ack) frame.now.version)) }
    ensures failed { IfErr result (λ why. why ≡ Unanswered.Write) }
{
    answerer.acknowledge(frame.version, frame.flow, &frame.ack, answer);
    let done = write_answer(duplex, answer);
    clear(answer);
    done
}

/// Makes an answer `None`.
fn clear(answer: &mut Option<(Message, Version)>)
    ensures { answer.new ≡ None }
{
    if answer.is_some() {
        *answer = None;
    }
}

/// Writes the frame of an answer, if there is one, and hands it on.
pub fn write_answer<D: Duplex>(
    duplex: &mut D,
    answer: &Option<(Message, Version)>,
) -> Result<(), Unanswered>
    requires { HasShortFrame answer.now }
    ensures written { OnOk result (Appends (D.written duplex.old) (D.written duplex.new) (answer_bytes answer.now)) }
    ensures handed { OnOk result (AreHandedOn (answer_bytes answer.now) (D.is_finished duplex.new)) }
    ensures kept { OnOk result (D.is_finished duplex.old → D.is_finished duplex.new) }
    ensures follows { D.Follows duplex.old duplex.new }
    ensures remaining { D.remaining duplex.new ≡ D.remaining duplex.old }
    ensures read_faults { D.read_faults duplex.new ≡ D.read_faults duplex.old }
    ensures counted { D.write_faults duplex.old ≤ D.write_faults duplex.new }
    ensures err { IfErr result (StopsAnswer (D.write_faults duplex.old) (D.write_faults duplex.new)
        (D.written duplex.old) (D.written duplex.new) (answer_bytes answer.now)) }
    ensures failed { IfErr result (λ why. why ≡ Unanswered.Write) }
{
    match answer {
        None => Ok(()),
        Some((message, version)) => write(duplex, message, *version),
    }
}

/// Writes the frame of a message, and hands it on.
#[inline(never)]
fn write<D: Duplex>(duplex: &mut D, message: &Message, version: Version) -> Result<(), Unanswered>
    requires meets { Meets version message.now }
    requires fits { length (frame_bytes version message.now) ≤ longest_answer }
    ensures written { OnOk result
        (Appends (D.written duplex.old) (D.written duplex.new) (frame_bytes version message.now)) }
    ensures finished { OnOk result (D.is_finished duplex.new) }
    ensures follows { D.Follows duplex.old duplex.new }
    ensures remaining { D.remaining duplex.new ≡ D.remaining duplex.old }
    ensures read_faults { D.read_faults duplex.new ≡ D.read_faults duplex.old }
    ensures counted { D.write_faults duplex.old ≤ D.write_faults duplex.new }
    ensures err { IfErr result (StopsAnswer (D.write_faults duplex.old) (D.write_faults duplex.new)
        (D.written duplex.old) (D.written duplex.new) (frame_bytes version message.now)) }
    ensures failed { IfErr result (λ why. why ≡ Unanswered.Write) }
{
    let mut out = [0u8; LONGEST];
    match encode_into(message, version, &mut out) {
        Ok(size) => match hand_over(duplex, &out[..size]) {
            Ok(()) => Ok(()),
            Err(_) => Err(Unanswered::Write),
        },
        Err(_) => unreachable!(),
    }
}

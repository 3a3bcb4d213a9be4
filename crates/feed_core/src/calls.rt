//! The loop that reads frames and writes answers.

ghost use Rattle.std.specs.Prelude.{◌≡◌, ◌+◌, ◌-◌, ◌≤◌, [], None, length};
ghost use Rattle.feed_core.specs.FeedBytes.{frames_from};
ghost use Rattle.feed_core.specs.Answering.{after, answering, feeding};
ghost use Rattle.feed_core.specs.FeedEnds.{stream, AllowsAnswered, IsFed, StaysFinished};
ghost use Rattle.feed_core.specs.FeedLacks.{AnswerLacksAt, FeedLacksAt};
ghost use Rattle.feed_core.specs.FeedLast.{IsLast};

use crate::answerer::Answerer;
use crate::duplex::{Duplex, Pair};
use crate::ending::FeedEnd;
use crate::feed::Feed;
use crate::piece::Piece;
use crate::rest::Rest;
use crate::turn::{Turn, next_frame};
use ccp_base::{Sink, Source};
use ccp_messages::Message;
use reply_frames::Version;
use std::alloc::Global;

/// The bytes of the longest input.
const LIMIT: usize = 1048576;

/// Answers the frames of an input, in whatever pieces they come; the answers depend only on the bytes, and are handed
/// on unless a write fails. It reads only where `allowed` lets it: once the answers to all frames of what it took are
/// handed on, so that an agent can wait for an answer before it sends more. Memory can run out only for the feed
/// itself, for the code of an Install, or for the flow of a Create; then the answers to all frames before it are
/// written, and at most a frame's bytes were read beyond them.
pub fn answer_frames<D: Duplex>(alloc: Global, duplex: &mut D) -> FeedEnd
    requires allowed { AllowsAnswered feeding D.remaining D.written D.is_finished D.Follows D.MayRead duplex.old }
    ensures follows { D.Follows duplex.old duplex.new }
    ensures reads { D.read_faults duplex.old ≤ D.read_faults duplex.new }
    ensures writes { D.write_faults duplex.old ≤ D.write_faults duplex.new }
    ensures fed { IsFed feeding [] FeedLacksAt
        (stream (D.remaining duplex.old) (D.remaining duplex.new)
        (D.read_faults duplex.old) (D.read_faults duplex.new))
        (stream (D.written duplex.old) (D.written duplex.new)
        (D.write_faults duplex.old) (D.write_faults duplex.new))
        (D.is_finished duplex.new) tt result }
{
    let mut feed = match Feed::new(alloc) {
        Ok(feed) => feed,
        Err(error) => return FeedEnd::NoMemory(error),
    };
    let mut rest = Rest::new();
    answer_from(alloc, &mut feed, &mut rest, 0, LIMIT, duplex)
}

/// Answers the frames that follow the first `eaten` bytes of an input of at most `limit` bytes, as `answer_frames` does.
/// `rest` has the bytes after the first `eaten` that were read before, and isn't used afterwards. It reads only where
/// `allowed` lets it: once the answers to all frames of `rest` and of what it took are handed on. The places in its
/// result are those in the input, which is cut at its end if the answerer needs another message there. Memory can run
/// out only for the code of an Install, or where the answerer takes it (`Takes`). If the input was read to its end, the
/// answerer has answered all its frames.
pub fn answer_from<A: Answerer, D: Duplex>(
    alloc: Global,
    answerer: &mut A,
    rest: &mut Rest,
    eaten: usize,
    limit: usize,
    duplex: &mut D,
) -> FeedEnd
    requires room { limit - eaten ≤ A.room answerer.old }
    requires within { eaten + length rest.old ≤ limit }
    requires allowed { AllowsAnswered
        (after rest.old (answering A.answer_of A.is_waiting limit eaten answerer.old))
        D.remaining D.written D.is_finished D.Follows D.MayRead duplex.old }
    ensures follows { D.Follows duplex.old duplex.new }
    ensures reads { D.read_faults duplex.old ≤ D.read_faults duplex.new }
    ensures writes { D.write_faults duplex.old ≤ D.write_faults duplex.new }
    ensures kept { StaysFinished (D.is_finished duplex.old) (D.is_finished duplex.new) result }
    ensures fed { IsFed (answering A.answer_of A.is_waiting limit eaten answerer.old) rest.old
        (AnswerLacksAt A.answer_of A.Takes eaten (frames_from A.answer_of limit eaten answerer.old))
        (stream (D.remaining duplex.old) (D.remaining duplex.new)
        (D.read_faults duplex.old) (D.read_faults duplex.new))
        (stream (D.written duplex.old) (D.written duplex.new)
        (D.write_faults duplex.old) (D.write_faults duplex.new))
        (D.is_finished duplex.new) answerer.new result }
{
    let mut answer = None;
    let end = answer_in_place(alloc, answerer, rest, eaten, limit, &mut answer, duplex);
    drop(answer);
    end
}

// A function of its own: none of its exits drops the place that answers are made in.
/// As `answer_from`; the answers to acknowledgements are made in `answer`.
fn answer_in_place<A: Answerer, D: Duplex>(
    alloc: Global,
    answerer: &mut A,
    rest: &mut Rest,
    eaten: usize,
    limit: usize,
    answer: &mut Option<(Message, Version)>,
    duplex: &mut D,
) -> FeedEnd
    requires room { limit - eaten ≤ A.room answerer.old }
    requires none { answer.old ≡ None }
    requires within { eaten + length rest.old ≤ limit }
    requires allowed { AllowsAnswered
        (after rest.old (answering A.answer_of A.is_waiting limit eaten answerer.old))
        D.remaining D.written D.is_finished D.Follows D.MayRead duplex.old }
    ensures follows { D.Follows duplex.old duplex.new }
    ensures reads { D.read_faults duplex.old ≤ D.read_faults duplex.new }
    ensures writes { D.write_faults duplex.old ≤ D.write_faults duplex.new }
    ensures kept { StaysFinished (D.is_finished duplex.old) (D.is_finished duplex.new) result }
    ensures fed { IsFed (answering A.answer_of A.is_waiting limit eaten answerer.old) rest.old
        (AnswerLacksAt A.answer_of A.Takes eaten (frames_from A.answer_of limit eaten answerer.old))
        (stream (D.remaining duplex.old) (D.remaining duplex.new)
        (D.read_faults duplex.old) (D.read_faults duplex.new))
        (stream (D.written duplex.old) (D.written duplex.new)
        (D.write_faults duplex.old) (D.write_faults duplex.new))
        (D.is_finished duplex.new) answerer.new result }
{
    let mut place = eaten;
    loop {
        match next_frame(alloc, answerer, rest.as_slice(), answer, duplex) {
            Turn::Answered(used) => {
                rest.drop_front(used);
                place += used;
            }
            Turn::Part => {
                let left = rest.len();
                match rest.read(duplex, limit - place - left) {
                    Piece::Bytes(_) => {}
                    Piece::End => return at_end(duplex, answerer.waits(), place, left),
                    Piece::Further => return FeedEnd::TooLong,
                    Piece::Failed => return FeedEnd::ReadFailed,
                }
            }
            Turn::Bad(field, offset) => return FeedEnd::Bad(field, (place + offset) as u64),
            Turn::WriteFailed => return FeedEnd::WriteFailed,
            Turn::NoMemory(error) => return FeedEnd::NoMemory(error),
        }
    }
}

/// Answers the frames of a source that may be read at any time, as `answer_frames` does, and writes to a sink.
pub fn feed<S: Source, K: Sink>(alloc: Global, source: &mut S, sink: &mut K) -> FeedEnd
    ensures reads { S.faults source.old ≤ S.faults source.new }
    ensures writes { K.faults sink.old ≤ K.faults sink.new }
    ensures fed { IsFed feeding [] FeedLacksAt
        (stream (S.remaining source.old) (S.remaining source.new) (S.faults source.old) (S.faults source.new))
        (stream (K.written sink.old) (K.written sink.new) (K.faults sink.old) (K.faults sink.new))
        (K.is_finished sink.new) tt result }
{
    let mut pair = Pair { source, sink };
    answer_frames(alloc, &mut pair)
}

/// The end of an input that was read completely: `left` of its bytes, from `place` on, are in no whole frame, and
/// another message is needed if `waits`.
fn at_end<D: Duplex>(duplex: &mut D, waits: bool, place: usize, left: usize) -> FeedEnd
    ensures follows { D.Follows duplex.old duplex.new }
    ensures remaining { D.remaining duplex.new ≡ D.remaining duplex.old }
    ensures read_faults { D.read_faults duplex.new ≡ D.read_faults duplex.old }
    ensures counted { D.write_faults duplex.old ≤ D.write_faults duplex.new }
    ensures kept { D.written duplex.new ≡ D.written duplex.old }
    ensures last { IsLast (D.write_faults duplex.old) (D.write_faults duplex.new)
        (D.is_finished duplex.old) (D.is_finished duplex.new) waits place left result }
{
    if left > 0 || waits {
        return FeedEnd::Cut(place as u64);
    }
    match duplex.finish() {
        Ok(()) => FeedEnd::Whole,
        Err(_) => FeedEnd::WriteFailed,
    }
}

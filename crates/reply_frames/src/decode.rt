//! Reads an Update or a Change at the front of bytes, or says why the bytes don't begin with one.
ghost use Rattle.std.specs.Prelude.{◌≡◌, ℕ, ◌-◌, List, length, Option, OnErr, IfOk, IfErr, Ok, Err};
ghost use Rattle.reply_frames.specs.declared.fault.BadKind.{BadKind};
ghost use Rattle.ccp_base.specs.FieldReg.{Pair};
ghost use Rattle.reply_frames.specs.Replies.{IsReply};
ghost use Rattle.reply_frames.specs.declared.decode.ReplyHead.{ReplyHead};
ghost use Rattle.reply_frames.specs.Frames.{Frame};
ghost use Rattle.reply_frames.specs.Whole.{IsFrameFront, IsBadIn, BeginsWithFrame};
ghost use Rattle.reply_frames.specs.Decoding.{needed_of, frame_fault, head_of, decoded_of, IsOther, IsBad};

use crate::bodies::skip_body;
use crate::encode::HEAD;
use crate::fault::{FrameFault, Stop};
use crate::head::outline;
use crate::outline::{FrameKind, Outline, Version, kind_number};
use crate::values::{change, update};
use ccp_base::Fields;

/// What an Update or a Change has besides its values.
#[derive(Clone, Copy, PartialEq, Eq)]
pub struct ReplyHead {
    /// The flow.
    pub flow: u32,
    /// The program that is to run; None for an Update.
    pub program: Option<u32>,
    /// The version that the frame is written in.
    pub version: Version,
    /// The length of the frame, in bytes.
    pub used: usize,
}

/// How many bytes are needed to go on: the 16 of a head, or the frame's length once the head is there.
#[tactic(auto, unfolding(crate::specs::Decoding::needed_of))]
pub fn needed_bytes(bytes: &[u8]) -> usize
    ensures { result ≡ needed_of bytes.now }
{
    if bytes.len() < HEAD {
        HEAD
    } else {
        let length = &bytes[12..16];
        u32::from_le_bytes([length[0], length[1], length[2], length[3]]) as usize
    }
}

/// Why bytes are no whole frame, from where reading stopped.
fn frame_fault(bytes: &[u8], stop: Stop) -> FrameFault
    ensures { result ≡ frame_fault bytes.now stop }
{
    match stop {
        Stop::Cut => FrameFault::More(needed_bytes(bytes)),
        Stop::Bad(field, left) => FrameFault::Bad(field, bytes.len().saturating_sub(left)),
    }
}

/// The head with this program, of a frame after which these bytes stand.
fn reply_head_of(head: Outline, program: Option<u32>, bytes: &[u8], rest: &[u8]) -> ReplyHead
    ensures { result ≡ head_of head program (length bytes.now - length rest.now) }
{
    ReplyHead {
        flow: head.flow,
        program,
        version: head.version,
        used: bytes.len().saturating_sub(rest.len()),
    }
}

/// Reads the Update or the Change at the front of bytes: the head, and the values into `fields`, which are as before
/// unless the answer is Ok.
#[tactic(auto, unfolding(crate::specs::Frames::frame_at))]
fn read_reply(bytes: &[u8], fields: &mut Fields) -> Result<ReplyHead, FrameFault>
    ensures found { IfOk result (λ head. decoded_of bytes.now ≡ Ok (head, fields.new)) }
    ensures fault { IfErr result (λ fault. decoded_of bytes.now ≡ Err fault) }
    ensures unchanged { OnErr result (fields.new ≡ fields.old) }
{
    let (head, rest) = match outline(bytes) {
        Ok(front) => front,
        Err(stop) => return Err(frame_fault(bytes, stop)),
    };
    let count = head.counts.n1;
    match head.kind {
        FrameKind::Update => match update(rest, count, fields) {
            Ok(rest) => Ok(reply_head_of(head, None, bytes, rest)),
            Err(stop) => Err(frame_fault(bytes, stop)),
        },
        FrameKind::Change => match change(rest, count, fields) {
            Ok((program, rest)) => Ok(reply_head_of(head, Some(program), bytes, rest)),
            Err(stop) => Err(frame_fault(bytes, stop)),
        },
        kind => match skip_body(rest, head) {
            Ok(_) => Err(FrameFault::Other(kind_number(kind))),
            Err(stop) => Err(frame_fault(bytes, stop)),
        },
    }
}

/// Reads the Update or the Change at the front of bytes into `values`, which are as before unless the answer is Ok.
/// The faults are those of `FrameFault`.
pub fn decode_fields(bytes: &[u8], values: &mut Fields) -> Result<ReplyHead, FrameFault>
    ensures found { IfOk result (λ head. decoded_of bytes.now ≡ Ok (head, values.new)) }
    ensures fault { IfErr result (λ fault. decoded_of bytes.now ≡ Err fault) }

    // What is read is spelled so, and what is spelled so is read.
    ensures spelled { IfOk result (λ head. IsReply bytes.now head values.new) }
    ensures only { (head : ReplyHead) (pairs : List Pair) → IsReply bytes.now head pairs
        → (result ≡ Ok head) × (values.new ≡ pairs) }

    // The answer is More exactly if the bytes are a proper prefix of a frame.
    ensures more { (n : ℕ) → result ≡ Err (FrameFault.More n) → IsFrameFront bytes.now × (n ≡ needed_of bytes.now) }
    ensures cut { IsFrameFront bytes.now → result ≡ Err (FrameFault.More (needed_of bytes.now)) }

    // It is Other exactly if they begin with a whole frame of another kind.
    ensures other { (n : ℕ) → result ≡ Err (FrameFault.Other n) → IsOther bytes.now n }
    ensures passed { (n : ℕ) → IsOther bytes.now n → result ≡ Err (FrameFault.Other n) }

    // Bad has the length of the longest prefix that some frame begins with, and the field of the byte after it. It is
    // the answer if the bytes are no prefix of a frame and begin with none.
    ensures bad { (field : BadKind) (place : ℕ) → result ≡ Err (FrameFault.Bad field place)
        → IsBadIn bytes.now field place }
    ensures refused { ((frame : Frame) → ¬ BeginsWithFrame bytes.now frame) → ¬ IsFrameFront bytes.now → IsBad result }
    ensures unchanged { OnErr result (values.new ≡ values.old) }
{
    read_reply(bytes, values)
}

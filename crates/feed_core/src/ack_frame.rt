//! The acknowledgement whose frame begins bytes, read at once: a frame of its kind has one length.

ghost use Rattle.std.specs.Prelude.{◌≡◌, ◌++◌, ◌+◌, ◌*◌, ◌≤◌, ◌<◌, ◌^◌, take, drop, IfSome};
ghost use Rattle.std.specs.Int.{w32, w64, from_le_bytes};
ghost use Rattle.reply_frames.specs.declared.outline.Version.TheVariants.{One};
ghost use Rattle.reply_frames.specs.Bodies.{ack_body};
ghost use Rattle.reply_frames.specs.FrameBytes.{body_bytes, numbers_bytes};
ghost use Rattle.ccp_messages.specs.Messages.{IsTypedAck};
ghost use Rattle.ccp_messages.specs.Decoding.{Begins};
ghost use Rattle.feed_core.specs.AckFrames.{ack_length, ack_head};

use ccp_base::{Ack, PRIMITIVES, ack_of};
use ccp_messages::Message;
use reply_frames::Version;

/// How many numbers an acknowledgement's frame has after its head: one for each primitive.
const NUMBERS: usize = PRIMITIVES as usize;

/// The bytes of an acknowledgement's frame: a head of 16, and eight for each number.
pub const ACK_BYTES: usize = 16 + 8 * NUMBERS;

/// The first eight bytes of the frame in version 1, as a number: its kind is 7, and it has no counts.
const HEAD_OF_ONE: u64 = 0x0107;

/// The first eight bytes of the frame in version 2, as a number.
const HEAD_OF_TWO: u64 = 0x0207;

/// An acknowledgement of a flow, with its frame's version.
#[derive(Clone, Copy)]
pub struct AckFrame {
    pub flow: u32,
    pub version: Version,
    pub ack: Ack,
}

/// The number of four bytes from this place on.
fn number32(frame: &[u8; ACK_BYTES], at: usize) -> u32
    requires { at + 4 ≤ ack_length }
    ensures { result ≡ from_le_bytes w32 (take 4 (drop at frame.now)) }
{
    let bytes = &frame[at..at + 4];
    u32::from_le_bytes([bytes[0], bytes[1], bytes[2], bytes[3]])
}

/// The number of eight bytes from this place on.
fn number64(frame: &[u8; ACK_BYTES], at: usize) -> u64
    requires { at + 8 ≤ ack_length }
    ensures { result ≡ from_le_bytes w64 (take 8 (drop at frame.now)) }
{
    let bytes = &frame[at..at + 8];
    u64::from_le_bytes([
        bytes[0], bytes[1], bytes[2], bytes[3], bytes[4], bytes[5], bytes[6], bytes[7],
    ])
}

/// The version and the flow of an acknowledgement's frame, if its head is that of one.
fn head(frame: &[u8; ACK_BYTES]) -> Option<(Version, u32)>
    ensures { IfSome result (λ head. take 16 frame.now ≡ ack_head head.0 head.1) }
{
    if number32(frame, 12) != ACK_BYTES as u32 {
        return None;
    }
    let flow = number32(frame, 8);
    match number64(frame, 0) {
        HEAD_OF_ONE => Some((Version::One, flow)),
        HEAD_OF_TWO => Some((Version::Two, flow)),
        _ => None,
    }
}

/// The numbers of a frame in order, one for each primitive.
fn numbers(frame: &[u8; ACK_BYTES]) -> [u64; NUMBERS]
    ensures { drop 16 frame.now ≡ numbers_bytes result }
{
    let mut numbers = [0; NUMBERS];
    for number in 0..NUMBERS {
        numbers[number] = number64(frame, 16 + 8 * number);
    }
    numbers
}

/// The acknowledgement of a frame, if the number of its timeout is 0 or 1.
fn body(frame: &[u8; ACK_BYTES]) -> Option<Ack>
    ensures body { IfSome result (λ ack. drop 16 frame.now ≡ body_bytes One (ack_body ack)) }
    ensures typed { IfSome result IsTypedAck }
{
    let numbers = numbers(frame);
    if numbers[NUMBERS - 1] > 1 {
        return None;
    }
    Some(ack_of(&numbers))
}

// Most frames are acknowledgements. This reads them without a test of each number's length, and without the kilobyte
// that a message of any kind takes.
/// The acknowledgement whose frame the bytes begin with, if they do.
pub fn ack_frame(bytes: &[u8]) -> Option<AckFrame>
    ensures { IfSome result (λ it. Begins bytes.now (Message.Ack it.flow it.ack) it.version ack_length) }
{
    let frame = bytes.first_chunk::<ACK_BYTES>()?;
    let (version, flow) = head(frame)?;
    let ack = body(frame)?;
    Some(AckFrame { flow, version, ack })
}

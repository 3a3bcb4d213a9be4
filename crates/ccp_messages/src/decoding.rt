//! Reads the message whose frame is at the front of bytes, or says why no frame is.
ghost use Rattle.std.specs.Prelude.{◌≡◌, ℕ, length, IfOk, Ok, Err};
ghost use Rattle.ccp_base.specs.Outside.{no_memory};
ghost use Rattle.reply_frames.specs.declared.fault.BadKind.{BadKind};
ghost use Rattle.reply_frames.specs.declared.outline.Version.{Version};
ghost use Rattle.reply_frames.specs.Frames.{frame_at};
ghost use Rattle.reply_frames.specs.Decoding.{needed_of};
ghost use Rattle.reply_frames.specs.Whole.{IsFrameFront, IsBadIn};
ghost use Rattle.ccp_messages.specs.declared.message.Message.{Message};
ghost use Rattle.ccp_messages.specs.Decoding.{Begins, ReturnsReading, found_from, decode_fault};
ghost use Rattle.ccp_messages.specs.Decoding.{decoded_of, IsDecoded, IsBad, BeginsInstall, LacksCode, IsFound, frame_lack};

use crate::fault::{DecodeFault, Halt};
use crate::message::Message;
use crate::read_body::body;
use ccp_base::{Fields, NoMemory};
use reply_frames::head::outline;
use reply_frames::{FrameFault, Stop, Version, decode_fields, needed_bytes};
use std::alloc::Global;

/// Why bytes don't begin with a frame, from where reading stopped.
fn decode_fault(bytes: &[u8], stop: Stop) -> DecodeFault
    ensures { result ≡ decode_fault bytes.now stop }
{
    match stop {
        Stop::Cut => DecodeFault::More(needed_bytes(bytes)),
        Stop::Bad(field, left) => DecodeFault::Bad(field, bytes.len().saturating_sub(left)),
    }
}

/// The message whose frame begins the bytes, its version and the frame's length.
#[tactic(auto, unfolding(reply_frames::specs::Frames::frame_at))]
fn read_message(alloc: Global, bytes: &[u8]) -> Result<(Message, Version, usize), Halt>
    ensures read { ReturnsReading (λ x. x) result (found_from (length bytes.now) (frame_at bytes.now)) }
    ensures memory { result ≡ Err (Halt.NoMemory no_memory) → BeginsInstall bytes.now }
{
    let (head, rest) = outline(bytes)?;
    let (message, rest) = body(alloc, rest, head)?;
    let used = bytes.len().saturating_sub(rest.len());
    Ok((message, head.version, used))
}

/// Why bytes give no message if there is no memory for the code of an Install: what is wrong with its frame, if anything
/// is, since that takes no memory to say.
fn without_code(bytes: &[u8], error: NoMemory) -> DecodeFault
    ensures { LacksCode result (decoded_of bytes.now) }
{
    match decode_fields(bytes, &mut Fields::new()) {
        Err(fault) => frame_lack(fault, error),
        Ok(_) => DecodeFault::NoMemory(error),
    }
}

/// What bytes lack that gave this fault where only the values of an Update or a Change are read.
fn frame_lack(fault: FrameFault, error: NoMemory) -> DecodeFault
    ensures { result ≡ frame_lack fault }
{
    match fault {
        FrameFault::More(needed) => DecodeFault::More(needed),
        FrameFault::Bad(field, offset) => DecodeFault::Bad(field, offset),
        FrameFault::Other(_) => DecodeFault::NoMemory(error),
    }
}

/// As `read_message`, with its faults.
fn decode_exactly(alloc: Global, bytes: &[u8]) -> Result<(Message, Version, usize), DecodeFault>
    ensures told { IsDecoded result (decoded_of bytes.now) }
    ensures memory { result ≡ Err (DecodeFault.NoMemory no_memory) → BeginsInstall bytes.now }
    ensures whole { result ≡ Err (DecodeFault.NoMemory no_memory) → IsFound (decoded_of bytes.now) }
{
    match read_message(alloc, bytes) {
        Ok(found) => Ok(found),
        Err(Halt::Stopped(stop)) => Err(decode_fault(bytes, stop)),
        Err(Halt::NoMemory(error)) => Err(without_code(bytes, error)),
    }
}

/// Reads the message whose frame begins the bytes, whatever follows it: the message, its version, and the frame's
/// length. The code of an Install is any that a frame can have; `code_verifier` says which is accepted. No other kind
/// takes memory. The faults are those of `DecodeFault`.
pub fn decode(alloc: Global, bytes: &[u8]) -> Result<(Message, Version, usize), DecodeFault>
    ensures told { IsDecoded result (decoded_of bytes.now) }

    // What is read begins the bytes, and what begins them is read.
    ensures found { IfOk result (λ x. Begins bytes.now x.0 x.1 x.2) }
    ensures only { (message : Message) (version : Version) (used : ℕ) → Begins bytes.now message version used
        → IsDecoded result (Ok (message, version, used)) }

    // The answer is More exactly if the bytes are a proper prefix of a frame.
    ensures more { (n : ℕ) → result ≡ Err (DecodeFault.More n) → IsFrameFront bytes.now × (n ≡ needed_of bytes.now) }
    ensures cut { IsFrameFront bytes.now → result ≡ Err (DecodeFault.More (needed_of bytes.now)) }

    // Bad has the length of the longest prefix that some frame begins with, and the field of the byte after it.
    ensures bad { (field : BadKind) (place : ℕ) → result ≡ Err (DecodeFault.Bad field place)
        → IsBadIn bytes.now field place }
    ensures refused { ((message : Message) (version : Version) (used : ℕ) → ¬ Begins bytes.now message version used)
        → ¬ IsFrameFront bytes.now → IsBad result }

    // Only the code of an Install takes memory, and of a whole one.
    ensures memory { result ≡ Err (DecodeFault.NoMemory no_memory) → BeginsInstall bytes.now }
    ensures whole { result ≡ Err (DecodeFault.NoMemory no_memory)
        → (message : Message) × (version : Version) × (used : ℕ) × Begins bytes.now message version used }
{
    decode_exactly(alloc, bytes)
}

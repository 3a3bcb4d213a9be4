//! A code, read from the body of an Install.

ghost use Rattle.reply_frames.specs.Parts.{Gives, repeated_at};
ghost use Rattle.ccp_messages.specs.Decoding.{ReturnsReading, code_start_at, code_event_at, code_instr_at};
ghost use Rattle.ccp_messages.specs.Decoding.{install_message_at};

use crate::code_parts::reg_of;
use crate::fault::Halt;
use crate::message::Message;
use reg_code::{Code, Event, Instr, Packed, Sequence, Start, op_numbered};
use reply_frames::parts::number32;
use reply_frames::{Counts, Stop, install_parts};
use std::alloc::Global;

/// How a register starts, and the bytes after it.
fn start(bytes: &[u8]) -> Result<(Start, &[u8]), Stop>
    ensures { Gives (λ x. (x.0, x.1.now)) result (code_start_at bytes.now) }
{
    let ((volatile, value), rest) = install_parts::start(bytes)?;
    Ok((Start { volatile, value }, rest))
}

/// An event, and the bytes after it.
fn event(bytes: &[u8]) -> Result<(Event, &[u8]), Stop>
    ensures { Gives (λ x. (x.0, x.1.now)) result (code_event_at bytes.now) }
{
    let ((condition, body), rest) = install_parts::event(bytes)?;
    Ok((Event { condition, body }, rest))
}

/// An instruction, and the bytes after it.
fn instr(bytes: &[u8]) -> Result<(Instr, &[u8]), Stop>
    ensures { Gives (λ x. (x.0, x.1.now)) result (code_instr_at bytes.now) }
{
    let (part, rest) = install_parts::instruction(bytes)?;
    let instr = Instr {
        op: op_numbered(part.op),
        to: reg_of(part.to),
        left: reg_of(part.left),
        right: reg_of(part.right),
    };
    Ok((instr, rest))
}

/// How `count` registers start, and the bytes after them.
fn starts(alloc: Global, bytes: &[u8], count: u8) -> Result<(Sequence<Start>, &[u8]), Halt>
    ensures { ReturnsReading (λ x. (x.0, x.1.now)) result (repeated_at code_start_at count bytes.now) }
{
    let mut items = Sequence::from_vec(Vec::with_capacity(alloc, count as usize)?);
    let mut rest = bytes;
    for _ in 0..count {
        let (item, after) = start(rest)?;
        items.push(item)?;
        rest = after;
    }
    Ok((items, rest))
}

/// `count` events, and the bytes after them.
fn events(alloc: Global, bytes: &[u8], count: u16) -> Result<(Sequence<Event>, &[u8]), Halt>
    ensures { ReturnsReading (λ x. (x.0, x.1.now)) result (repeated_at code_event_at count bytes.now) }
{
    let mut items = Sequence::from_vec(Vec::with_capacity(alloc, count as usize)?);
    let mut rest = bytes;
    for _ in 0..count {
        let (item, after) = event(rest)?;
        items.push(item)?;
        rest = after;
    }
    Ok((items, rest))
}

/// `count` instructions, and the bytes after them.
fn instrs(alloc: Global, bytes: &[u8], count: u16) -> Result<(Sequence<Packed>, &[u8]), Halt>
    ensures { ReturnsReading (λ x. (x.0, x.1.now)) result (repeated_at code_instr_at count bytes.now) }
{
    let mut items = Sequence::from_vec(Vec::with_capacity(alloc, count as usize)?);
    let mut rest = bytes;
    for _ in 0..count {
        let (item, after) = instr(rest)?;
        items.push(Packed::new(item))?;
        rest = after;
    }
    Ok((items, rest))
}

/// An Install from its body, and the bytes after it.
#[tactic(auto, unfolding(crate::specs::Decoding::install_message_at))]
pub fn install(
    alloc: Global,
    bytes: &[u8],
    flow: u32,
    counts: Counts,
) -> Result<(Message, &[u8]), Halt>
    ensures { ReturnsReading (λ x. (x.0, x.1.now)) result (install_message_at flow counts bytes.now) }
{
    let (program, rest) = number32(bytes)?;
    let (reports, rest) = starts(alloc, rest, counts.n1)?;
    let (controls, rest) = starts(alloc, rest, counts.n2)?;
    let (events, rest) = events(alloc, rest, counts.n3)?;
    let (instrs, rest) = instrs(alloc, rest, counts.n4)?;
    let code = Code::new(alloc, reports, controls, events, instrs)?;
    Ok((
        Message::Install {
            flow,
            program,
            code,
        },
        rest,
    ))
}

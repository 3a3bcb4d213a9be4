//! Bytes that no frame begins with, and bytes that go on to one, for both decoders.
use crate::frames::{
    ACK_BYTES, CHANGE, CHANGE_3, CREATE, FAULT, INSTALL, INSTALL_5, MEASURE, REFUSED_2, UPDATE,
    ack_frame,
};
use ccp_base::{Bytes, Fields};
use ccp_messages::{BadKind, DecodeFault, decode};
use reply_frames::{FrameFault, MOST_OPERATION, decode_fields};
use std::alloc::{AllocError, Global};
use std::process::Abort;
use std::test::*;

/// Why bytes aren't a message; None if they are.
fn refusal(alloc: Global, bytes: &[u8]) -> Option<DecodeFault> {
    match decode(alloc, bytes) {
        Ok(_) => None,
        Err(fault) => Some(fault),
    }
}

/// Whether the refusal of a front of a frame says how many bytes the frame needs.
fn is_cut(alloc: Global, frame: &[u8], count: usize) -> bool {
    if count > frame.len() {
        return false;
    }
    let needed = if count < 16 { 16 } else { frame.len() };
    let front = &frame[..count];
    refusal(alloc, front) == Some(DecodeFault::More(needed))
        && decode_fields(front, &mut Fields::new()) == Err(FrameFault::More(needed))
}

/// The refusal of each proper prefix of a frame says how many bytes the frame needs.
fn cut_everywhere(rt: &impl Abort, alloc: Global, frame: &[u8]) {
    for count in 0..frame.len() {
        assert!(rt; is_cut(alloc, frame, count), "{count} of {frame:?}");
    }
    assert!(rt; refusal(alloc, frame).is_none());
}

/// Frames that are cut at each place.
const WHOLE: [&[u8]; 9] = [
    CREATE, MEASURE, INSTALL_5, INSTALL, UPDATE, CHANGE, CHANGE_3, FAULT, REFUSED_2,
];

#[test]
fn a_cut_frame_needs_more_bytes(rt: HostRuntime) {
    for frame in &WHOLE {
        cut_everywhere(&rt, rt.alloc(), frame);
    }
}

#[test]
fn a_cut_ack_needs_more_bytes(rt: HostRuntime) -> Result<(), Fail> {
    let ack = ack_frame(rt.alloc(), 0, 0)?;
    cut_everywhere(&rt, rt.alloc(), ack.as_slice());
    Ok(())
}

/// A frame, a place, a byte that can't stand there, and the byte's field.
type Bad<'a> = (&'a [u8], usize, u8, BadKind);

/// Whether a frame with the byte at the place is refused there.
fn is_bad(alloc: Global, bad: &Bad<'_>) -> Result<bool, AllocError> {
    let (frame, place, byte, field) = *bad;
    if place >= frame.len() {
        return Ok(false);
    }
    let mut bytes = Bytes::new(alloc);
    bytes.extend(&frame[..place])?;
    bytes.push(byte)?;
    bytes.extend(&frame[place + 1..])?;
    let read = decode_fields(bytes.as_slice(), &mut Fields::new());
    Ok(
        refusal(alloc, bytes.as_slice()) == Some(DecodeFault::Bad(field, place))
            && read == Err(FrameFault::Bad(field, place)),
    )
}

/// The front of an Install of version 2 with as many registers as there may be.
const FULL: &[u8] = b"\x03\x02\x40\x40\x00\x00\x00\x00";

/// The same with one instruction.
const FULLER: &[u8] = b"\x03\x02\x40\x40\x00\x00\x01\x00";

/// The front of an Update of control 0.
const CONTROL: &[u8] = b"\x04\x01\x01\x00\x00\x00\x00\x00\x00\x00\x00\x00\x1a\x00\x00\x00\x03\x00";

const BAD: [Bad<'static>; 33] = [
    (b"\x01", 0, 9, BadKind::Kind),
    (b"\x01", 0, 0, BadKind::Kind),
    (b"\x01\x01", 1, 3, BadKind::Version),
    (CREATE, 2, 1, BadKind::Count),
    (CREATE, 12, 27, BadKind::Length),
    (MEASURE, 2, 33, BadKind::Count),
    (MEASURE, 3, 1, BadKind::Count),
    (MEASURE, 13, 1, BadKind::Length),
    (INSTALL_5, 2, 33, BadKind::Count),
    (INSTALL_5, 3, 65, BadKind::Count),
    (INSTALL_5, 4, 65, BadKind::Count),
    (INSTALL_5, 5, 1, BadKind::Count),
    (INSTALL_5, 7, 2, BadKind::Count),
    (INSTALL_5, 12, 21, BadKind::Length),
    (FULL, 4, 65, BadKind::Count),
    (FULL, 5, 1, BadKind::Count),
    (FULL, 7, 2, BadKind::Count),
    (FULLER, 7, 1, BadKind::Count),
    (INSTALL, 20, 2, BadKind::Flag),
    (INSTALL, 33, MOST_OPERATION + 1, BadKind::Op),
    (INSTALL, 34, 7, BadKind::Class),
    (INSTALL, 35, 6, BadKind::Index),
    (INSTALL, 36, 1, BadKind::Index),
    (UPDATE, 2, 67, BadKind::Count),
    (UPDATE, 16, 5, BadKind::Class),
    (UPDATE, 17, 6, BadKind::Index),
    (CONTROL, 17, 64, BadKind::Index),
    (FAULT, 32, 3, BadKind::FaultKind),
    (FAULT, 12, 47, BadKind::Length),
    (REFUSED_2, 16, 0, BadKind::Kind),
    (REFUSED_2, 16, 10, BadKind::Kind),
    (REFUSED_2, 4, 1, BadKind::Count),
    (REFUSED_2, 15, 1, BadKind::Length),
];

#[test]
fn the_first_bad_byte_is_named(rt: HostRuntime) -> Result<(), Fail> {
    for (place, bad) in BAD.iter().enumerate() {
        assert!(rt; is_bad(rt.alloc(), bad)?, "row {place}");
    }
    Ok(())
}

/// A place in an Ack, a byte that can't stand there, and the byte's field.
const BAD_IN_ACK: [(usize, u8, BadKind); 3] = [
    (ACK_BYTES - 8, 2, BadKind::Flag),
    (ACK_BYTES - 1, 1, BadKind::Flag),
    (6, 1, BadKind::Count),
];

fn is_bad_in_ack(alloc: Global, bad: &(usize, u8, BadKind)) -> Result<bool, AllocError> {
    let (place, byte, field) = *bad;
    let ack = ack_frame(alloc, 0, 0)?;
    is_bad(alloc, &(ack.as_slice(), place, byte, field))
}

#[test]
fn the_first_bad_byte_of_an_ack_is_named(rt: HostRuntime) -> Result<(), Fail> {
    for bad in &BAD_IN_ACK {
        assert!(rt; is_bad_in_ack(rt.alloc(), bad)?, "at {}", bad.0);
    }
    Ok(())
}

//! Frames that come in pieces.
use crate::runs::{FailingCalls, NONE_FAILS, run_on_words};
use ccp_base::{Bytes, PRIMITIVES};
use std::alloc::{AllocError, Global};
use std::process::Abort;
use std::sync::Wait;
use std::test::Fail;
use std::thread::Threads;

/// A part of an input.
pub(crate) enum Part {
    /// A frame, or bytes that begin none.
    Frame(&'static [u8]),
    /// The Ack of flow 0 with each number 0.
    Ack,
}

use Part::{Ack, Frame};

/// The Create of flow 0 with `Cwnd` 4344.
const CREATE: &[u8] =
    b"\x01\x01\x00\x00\x00\x00\x00\x00\x00\x00\x00\x00\x1c\x00\x00\x00\xf8\x10\x00\x00\x00\x00\x00\x00\xa8\x05\x00\x00";

/// The same in version 2.
const CREATE_2: &[u8] =
    b"\x01\x02\x00\x00\x00\x00\x00\x00\x00\x00\x00\x00\x1c\x00\x00\x00\xf8\x10\x00\x00\x00\x00\x00\x00\xa8\x05\x00\x00";

/// The first 20 bytes of `CREATE`.
const CUT_CREATE: &[u8] =
    b"\x01\x01\x00\x00\x00\x00\x00\x00\x00\x00\x00\x00\x1c\x00\x00\x00\xf8\x10\x00\x00";

/// The Install of program 0, which has one field that starts at 7 and reports at each acknowledgement.
const INSTALL: &[u8] =
    b"\x03\x01\x01\x00\x01\x00\x02\x00\x00\x00\x00\x00\x59\x00\x00\x00\x00\x00\x00\x00\x00\x07\x00\x00\x00\x00\x00\x00\x00\x01\x00\x01\x00\x0b\x04\x00\x00\x00\x00\x00\x00\x00\x00\x00\x01\x00\x00\x00\x00\x00\x00\x00\x00\x00\x00\x00\x00\x00\x00\x00\x00\x0b\x04\x02\x00\x00\x00\x00\x00\x00\x00\x00\x01\x00\x00\x00\x00\x00\x00\x00\x00\x00\x00\x00\x00\x00\x00\x00\x00";

/// The Install of program 0 with 33 fields and no events, in version 2.
const INSTALL_33: &[u8] =
    b"\x03\x02\x21\x00\x00\x00\x00\x00\x00\x00\x00\x00\x3d\x01\x00\x00\x00\x00\x00\x00\x00\x00\x00\x00\x00\x00\x00\x00\x00\x00\x00\x00\x00\x00\x00\x00\x00\x00\x00\x00\x00\x00\x00\x00\x00\x00\x00\x00\x00\x00\x00\x00\x00\x00\x00\x00\x00\x00\x00\x00\x00\x00\x00\x00\x00\x00\x00\x00\x00\x00\x00\x00\x00\x00\x00\x00\x00\x00\x00\x00\x00\x00\x00\x00\x00\x00\x00\x00\x00\x00\x00\x00\x00\x00\x00\x00\x00\x00\x00\x00\x00\x00\x00\x00\x00\x00\x00\x00\x00\x00\x00\x00\x00\x00\x00\x00\x00\x00\x00\x00\x00\x00\x00\x00\x00\x00\x00\x00\x00\x00\x00\x00\x00\x00\x00\x00\x00\x00\x00\x00\x00\x00\x00\x00\x00\x00\x00\x00\x00\x00\x00\x00\x00\x00\x00\x00\x00\x00\x00\x00\x00\x00\x00\x00\x00\x00\x00\x00\x00\x00\x00\x00\x00\x00\x00\x00\x00\x00\x00\x00\x00\x00\x00\x00\x00\x00\x00\x00\x00\x00\x00\x00\x00\x00\x00\x00\x00\x00\x00\x00\x00\x00\x00\x00\x00\x00\x00\x00\x00\x00\x00\x00\x00\x00\x00\x00\x00\x00\x00\x00\x00\x00\x00\x00\x00\x00\x00\x00\x00\x00\x00\x00\x00\x00\x00\x00\x00\x00\x00\x00\x00\x00\x00\x00\x00\x00\x00\x00\x00\x00\x00\x00\x00\x00\x00\x00\x00\x00\x00\x00\x00\x00\x00\x00\x00\x00\x00\x00\x00\x00\x00\x00\x00\x00\x00\x00\x00\x00\x00\x00\x00\x00\x00\x00\x00\x00\x00\x00\x00\x00\x00\x00\x00\x00\x00\x00\x00\x00\x00\x00\x00\x00\x00\x00\x00\x00\x00\x00\x00\x00\x00\x00\x00\x00\x00\x00\x00";

/// The Change of flow 0 to program 0.
const CHANGE: &[u8] =
    b"\x05\x01\x00\x00\x00\x00\x00\x00\x00\x00\x00\x00\x14\x00\x00\x00\x00\x00\x00\x00";

/// What a flow that reports sends.
pub(crate) const REPORTING: [Part; 4] = [Frame(CREATE), Frame(INSTALL), Frame(CHANGE), Ack];

/// The Measure that answers it: one acknowledgement, a field of value 7.
pub(crate) const MEASURE: &[u8] =
    b"\x02\x01\x01\x00\x00\x00\x00\x00\x00\x00\x00\x00\x40\x00\x00\x00\x00\x00\x00\x00\x00\x00\x00\x00\x00\x00\x00\x00\x01\x00\x00\x00\x00\x00\x00\x00\x00\x00\x00\x00\xf8\x10\x00\x00\x00\x00\x00\x00\x00\x00\x00\x00\x00\x00\x00\x00\x07\x00\x00\x00\x00\x00\x00\x00";

/// The Refused that answers a second Create: the flow is there.
const IS_THERE: &[u8] =
    b"\x08\x01\x00\x00\x00\x00\x00\x00\x00\x00\x00\x00\x15\x00\x00\x00\x02\x00\x00\x00\x00";

/// The Refused that answers a Change to a program that isn't there.
const ISNT_THERE: &[u8] =
    b"\x08\x01\x00\x00\x00\x00\x00\x00\x00\x00\x00\x00\x15\x00\x00\x00\x06\x00\x00\x00\x00";

/// The Refused that answers a Change to a program with too many fields for a flow of version 1.
const HAS_TOO_MANY: &[u8] =
    b"\x08\x01\x00\x00\x00\x00\x00\x00\x00\x00\x00\x00\x15\x00\x00\x00\x09\x00\x00\x00\x00";

/// The Measure of a flow of version 2.
const MEASURE_2: &[u8] =
    b"\x02\x02\x01\x00\x00\x00\x00\x00\x00\x00\x00\x00\x48\x00\x00\x00\x00\x00\x00\x00\x00\x00\x00\x00\x00\x00\x00\x00\x00\x00\x00\x00\x01\x00\x00\x00\x00\x00\x00\x00\x00\x00\x00\x00\x00\x00\x00\x00\xf8\x10\x00\x00\x00\x00\x00\x00\x00\x00\x00\x00\x00\x00\x00\x00\x07\x00\x00\x00\x00\x00\x00\x00";

/// The parts of an input, and the result of a run of `feed` on it: its status, what it wrote, and the error line.
type Row = (&'static [Part], u8, &'static [u8], &'static [u8]);

const ROWS: [Row; 8] = [
    (&REPORTING, 0, MEASURE, b""),
    (
        &[Frame(CREATE), Frame(CREATE), Frame(CUT_CREATE)],
        3,
        IS_THERE,
        b"ccp: input refused: frame cut at 56\n",
    ),
    (
        &[Frame(CREATE), Frame(b"\x09")],
        3,
        b"",
        b"ccp: input refused: frame Kind at 28\n",
    ),
    (&[], 0, b"", b""),
    (&[Frame(CREATE), Frame(CREATE)], 0, IS_THERE, b""),
    (&[Frame(CREATE), Ack, Frame(CHANGE)], 0, ISNT_THERE, b""),
    (
        &[Frame(CREATE), Frame(INSTALL_33), Frame(CHANGE)],
        0,
        HAS_TOO_MANY,
        b"",
    ),
    (
        &[Frame(CREATE_2), Frame(INSTALL), Frame(CHANGE), Ack],
        0,
        MEASURE_2,
        b"",
    ),
];

/// How long the frame of an acknowledgement is: a head of 16 bytes, and 8 bytes for each primitive.
const ACK_BYTES: usize = 16 + 8 * PRIMITIVES as usize;

fn put_part(input: &mut Bytes, part: &Part) -> Result<(), AllocError> {
    match part {
        Frame(bytes) => input.extend(bytes),
        Ack => {
            input.extend(&[7, 1, 0, 0, 0, 0, 0, 0, 0, 0, 0, 0, ACK_BYTES as u8, 0, 0, 0])?;
            input.extend(&[0; ACK_BYTES - 16])
        }
    }
}

/// The input with these parts.
pub(crate) fn join_parts(alloc: Global, parts: &[Part]) -> Result<Bytes, AllocError> {
    let mut input = Bytes::new(alloc);
    for part in parts {
        put_part(&mut input, part)?;
    }
    Ok(input)
}

/// Whether a feed has this result if its reads and writes take at most `most` bytes.
fn is_answered<R: Threads + Wait + Sync>(
    rt: &R,
    alloc: Global,
    row: &Row,
    most: usize,
) -> Result<bool, Fail> {
    let (parts, status, output, errors) = *row;
    let input = join_parts(alloc, parts)?;
    let calls = FailingCalls { most, ..NONE_FAILS };
    let run = run_on_words(rt, alloc, &["ccp", "feed"], input.as_slice(), calls)?;
    Ok(run.is(status, output, errors) && run.programs == 0 && run.ran == 0)
}

/// Asserts that a feed has this result by pieces of each length from 1 to 20, and by its whole input.
fn assert_answered_in_pieces<R: Threads + Wait + Sync>(
    rt: &R,
    abort: &impl Abort,
    alloc: Global,
    row: &Row,
) -> Result<(), Fail> {
    for most in 1..=20 {
        assert!(abort; is_answered(rt, alloc, row, most)?, "by {most}");
    }
    assert!(abort; is_answered(rt, alloc, row, 4096)?, "whole");
    Ok(())
}

#[test]
fn feeds_come_in_any_pieces(rt: HostRuntime) -> Result<(), Fail> {
    for row in &ROWS {
        assert_answered_in_pieces(&rt, &rt, rt.alloc(), row)?;
    }
    Ok(())
}

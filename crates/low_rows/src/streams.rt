//! Streams in memory: pieces, limits, and calls that fail.
use ccp_base::{Failed, MemSink, MemSource, ReadFault, Sink, Source, read_all, write_all};
use std::alloc::Global;
use std::test::*;

/// What is read of a text and written of it.
const TEXT: &[u8] = b"seven77";

/// Reading the text: how many bytes a call gives, which calls fail, the limit, what comes of it, and how many calls
/// have failed.
type Reading = (
    usize,
    &'static [u64],
    usize,
    Result<&'static [u8], ReadFault>,
    u64,
);

const READINGS: [Reading; 8] = [
    (1, &[], 7, Ok(TEXT), 0),
    (3, &[], 7, Ok(TEXT), 0),
    (9000, &[], 9000, Ok(TEXT), 0),
    (3, &[], 6, Err(ReadFault::TooLong), 0),
    (9000, &[], 0, Err(ReadFault::TooLong), 0),
    (3, &[0], 7, Err(ReadFault::Read), 1),
    (3, &[3], 7, Err(ReadFault::Read), 1),
    (3, &[4], 7, Ok(TEXT), 0),
];

fn is_same(fault: ReadFault, wanted: ReadFault) -> bool {
    match (fault, wanted) {
        (ReadFault::Read, ReadFault::Read) => true,
        (ReadFault::TooLong, ReadFault::TooLong) => true,
        (ReadFault::NoMemory(_), ReadFault::NoMemory(_)) => true,
        _ => false,
    }
}

fn is_read(alloc: Global, row: &Reading) -> bool {
    let (most, failing, limit, wanted, faults) = *row;
    if most == 0 {
        return false;
    }
    let mut source = MemSource::new(TEXT, most, failing);
    let came = match (read_all(alloc, &mut source, limit), wanted) {
        (Ok(bytes), Ok(wanted)) => bytes.as_slice() == wanted,
        (Err(fault), Err(wanted)) => is_same(fault, wanted),
        _ => false,
    };
    came && source.faults() == faults
}

#[test]
fn what_is_read(rt: HostRuntime) {
    for (place, row) in READINGS.iter().enumerate() {
        assert!(rt; is_read(rt.alloc(), row), "at {place}");
    }
}

/// Writing the text: how many bytes a call takes, which calls fail, what comes of it, what is written, and how many
/// calls have failed.
type Writing = (
    usize,
    &'static [u64],
    Result<(), Failed>,
    &'static [u8],
    u64,
);

const WRITINGS: [Writing; 5] = [
    (1, &[], Ok(()), TEXT, 0),
    (9000, &[], Ok(()), TEXT, 0),
    (3, &[1], Err(Failed), b"sev", 1),
    (3, &[3], Err(Failed), TEXT, 1),
    (3, &[4], Ok(()), TEXT, 0),
];

fn is_written(alloc: Global, row: &Writing) -> bool {
    let (most, failing, wanted, written, faults) = *row;
    if most == 0 {
        return false;
    }
    let mut sink = MemSink::new(alloc, most, failing);
    write_all(&mut sink, TEXT) == wanted
        && sink.as_slice() == written
        && sink.faults() == faults
        && sink.is_finished() == wanted.is_ok()
}

#[test]
fn what_is_written(rt: HostRuntime) {
    for (place, row) in WRITINGS.iter().enumerate() {
        assert!(rt; is_written(rt.alloc(), row), "at {place}");
    }
}

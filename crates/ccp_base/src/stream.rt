//! Streams of bytes, of the process or in memory, as sources and sinks.

ghost use Rattle.std.specs.Prelude.{◌≡◌, ◌<◌, ◌≤◌, Some, None, IfOk, OnErr, refl};
ghost use Rattle.ccp_base.specs.Outside.{IsKnownByType, Rose};
ghost use Rattle.ccp_base.specs.SystemAnswers.{read_answer, write_answer, flush_answer, faults_after};

use crate::outside::{Failed, fault};
use crate::sink::Sink;
use crate::source::Source;
use std::io;
use std::io::{Read, Stderr, Stdin, Stdout, Write};

/// What bytes are read from. The type decides whether the bytes that are left are known: all its values know them, or
/// none does.
pub trait ReadStream: Read {
    ghost known_by_type: { IsKnownByType Self.remaining };
}

/// What bytes are written to. The type decides whether the bytes that were written are known: all its values know them,
/// or none does.
pub trait WriteStream: Write {
    ghost known_by_type: { IsKnownByType Self.contents };
}

impl ReadStream for Stdin {
    ghost known_by_type = { λ x y. refl };
}

impl ReadStream for &[u8] {
    ghost known_by_type = { λ x y. refl };
}

impl WriteStream for Stdout {
    ghost known_by_type = { λ x y. refl };
}

impl WriteStream for Stderr {
    ghost known_by_type = { λ x y. refl };
}

impl WriteStream for Vec<u8> {
    ghost known_by_type = { λ x y. refl };
}

/// The answer to a read: the system's count if it gives one, else `Failed` and one more fault, and never an end.
fn read_answer(answer: io::Result<usize>, faults: &mut u64) -> Result<usize, Failed>
    ensures told { result ≡ read_answer answer }
    ensures faults { faults.new ≡ faults_after result faults.old }
    ensures counted { faults.old ≤ faults.new }
    ensures failed { OnErr result (Rose faults.old faults.new) }
{
    let Ok(count) = answer else {
        return Err(fault(faults));
    };
    Ok(count)
}

/// The answer to a write of a piece of `size` bytes: how many of them the system took, or `Failed` and one more fault
/// if it reports an error, or that it took none of some bytes.
fn write_answer(answer: io::Result<usize>, size: usize, faults: &mut u64) -> Result<usize, Failed>
    ensures told { result ≡ write_answer size answer }
    ensures faults { faults.new ≡ faults_after result faults.old }
    ensures counted { faults.old ≤ faults.new }
    ensures failed { OnErr result (Rose faults.old faults.new) }
    ensures some { IfOk result (λ n. 0 < size → 0 < n) }
{
    match answer {
        Ok(count) if count > 0 || size == 0 => Ok(count),
        _ => Err(fault(faults)),
    }
}

/// The answer to a flush: `Failed` and one more fault if the system reports an error.
fn flush_answer(answer: io::Result<()>, faults: &mut u64) -> Result<(), Failed>
    ensures told { result ≡ flush_answer answer }
    ensures faults { faults.new ≡ faults_after result faults.old }
    ensures counted { faults.old ≤ faults.new }
    ensures failed { OnErr result (Rose faults.old faults.new) }
{
    match answer {
        Ok(()) => Ok(()),
        Err(_) => Err(fault(faults)),
    }
}

/// A stream as a source. It knows of its bytes what the stream knows, and a read fails if that of the stream does.
#[derive(Drop)]
pub struct Reader<R> {
    stream: R,
    faults: u64,
}

impl<R: ReadStream> Reader<R> {
    /// The stream as a source, with no faults counted.
    pub fn new(stream: R) -> Self
        ensures stream { result.stream ≡ stream }
        ensures faults { result.faults ≡ 0 }
    {
        Reader { stream, faults: 0 }
    }
}

impl<R: ReadStream> Source for Reader<R> {
    ghost remaining = { λ s. R.remaining s.stream };

    ghost faults = { λ s. s.faults };

    fn read(&mut self, out: &mut [u8]) -> Result<usize, Failed> {
        let answer = self.stream.read(out);
        read_answer(answer, &mut self.faults)
    }
}

/// A stream as a sink. It knows of its bytes what the stream knows. A write fails if that of the stream does or takes
/// none of some bytes, and a finish fails if a flush of the stream does.
#[derive(Drop)]
pub struct Writer<W> {
    stream: W,
    faults: u64,
}

impl<W: WriteStream> Writer<W> {
    /// The stream as a sink, with no faults counted.
    pub fn new(stream: W) -> Self
        ensures stream { result.stream ≡ stream }
        ensures faults { result.faults ≡ 0 }
    {
        Writer { stream, faults: 0 }
    }
}

impl<W: WriteStream> Sink for Writer<W> {
    ghost written = { λ s. W.contents s.stream };

    ghost faults = { λ s. s.faults };

    fn write(&mut self, bytes: &[u8]) -> Result<usize, Failed> {
        let answer = self.stream.write(bytes);
        write_answer(answer, bytes.len(), &mut self.faults)
    }

    fn finish(&mut self) -> Result<(), Failed> {
        let answer = self.stream.flush();
        flush_answer(answer, &mut self.faults)
    }
}

/// The process's standard input, whose bytes aren't known.
pub type StdIn = Reader<Stdin>;

/// The process's standard output, whose bytes aren't known.
pub type StdOut = Writer<Stdout>;

/// The process's standard error, whose bytes aren't known.
pub type StdErr = Writer<Stderr>;

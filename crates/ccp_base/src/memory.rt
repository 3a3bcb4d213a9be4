//! Sources and sinks in memory for tests, whose calls fail at listed numbers.
ghost use Rattle.std.specs.Prelude.{◌≡◌, false, ◌+◌, ◌<◌, ◌≤◌, ◌↔◌, [], Some, IsTrue, IfOk, OnOk, OnErr, IsErr, Contains, min, take, drop, length};
ghost use Rattle.ccp_base.specs.Outside.{Rose, Takes, IsAtEnd, Appends};

use crate::outside::{Failed, fault};
use crate::sequence::Bytes;
use crate::sink::Sink;
use crate::source::Source;
use std::alloc::Global;

/// Counts a call, and answers whether it is one of those that fail.
fn is_listed(failing: &[u64], calls: &mut u64) -> bool
    ensures listed { IsTrue result ↔ Contains failing.now calls.old }
    ensures calls { calls.new ≡ min (calls.old + 1) u64.MAX }
{
    let call = *calls;
    *calls = call.saturating_add(1);
    failing.contains(&call)
}

/// A source in memory, with reads that fail exactly at the listed numbers.
#[derive(Clone, Copy)]
pub struct MemSource<'a> {
    left: &'a [u8],
    most: usize,
    failing: &'a [u64],
    calls: u64,
    faults: u64,
    ghost some: { 1 ≤ most },
}

impl<'a> MemSource<'a> {
    /// A source of these bytes. A read gives at most `most` of them, and the reads numbered in `failing`,
    /// counted from 0, fail.
    pub fn new(bytes: &'a [u8], most: usize, failing: &'a [u64]) -> Self
        requires { 1 ≤ most }
        ensures left { result.left.now ≡ bytes.entry.now }
        ensures most { result.most ≡ most }
        ensures failing { result.failing.now ≡ failing.entry.now }
        ensures calls { result.calls ≡ 0 }
        ensures faults { result.faults ≡ 0 }
    {
        MemSource {
            left: bytes,
            most,
            failing,
            calls: 0,
            faults: 0,
        }
    }

    /// How many reads failed.
    pub fn faults(&self) -> u64
        ensures { result ≡ self.now.faults }
    {
        self.faults
    }
}

impl Source for MemSource<'_> {
    ghost remaining = { λ s. Some s.left.now };

    ghost faults = { λ s. s.faults };

    fn read(&mut self, out: &mut [u8]) -> Result<usize, Failed>
        ensures counted { self.old.faults ≤ self.new.faults }
        ensures failed { OnErr result (Rose self.old.faults self.new.faults) }
        ensures kept { OnErr result (Some self.new.left.now ≡ Some self.old.left.now) }
        ensures within { IfOk result (λ n. n ≤ length out.old) }
        ensures taken { IfOk result (λ n. Takes (Some self.old.left.now) (Some self.new.left.now) (take n out.new)) }
        ensures end { IfOk result (λ n. n ≡ 0 → 0 < length out.old → IsAtEnd (Some self.old.left.now)) }
        ensures listed { IsErr result ↔ Contains self.old.failing.now self.old.calls }
        ensures most { IfOk result (λ n. n ≡ min self.old.most (min (length out.old) (length self.old.left.now))) }
        ensures rest { IfOk result (λ n. drop n out.new ≡ drop n out.old) }
        ensures calls { self.new.calls ≡ min (self.old.calls + 1) u64.MAX }
        ensures same_most { self.new.most ≡ self.old.most }
        ensures same_failing { self.new.failing.now ≡ self.old.failing.now }
        ensures quiet { OnOk result (self.new.faults ≡ self.old.faults) }
    {
        if is_listed(self.failing, &mut self.calls) {
            return Err(fault(&mut self.faults));
        }
        let count = self.most.min(out.len()).min(self.left.len());
        let (given, left) = self.left.split_at(count);
        out[..count].copy_from_slice(given);
        self.left = left;
        Ok(count)
    }
}

/// A sink in memory, whose calls fail at the listed numbers. A `finish` fails only there. A `write` also fails if
/// memory for its bytes is refused, which `refusals` counts.
#[derive(Drop)]
pub struct MemSink<'a> {
    bytes: Bytes,
    most: usize,
    failing: &'a [u64],
    calls: u64,
    faults: u64,
    refusals: u64,
    finished: bool,
    ghost some: { 1 ≤ most },
}

impl<'a> MemSink<'a> {
    /// A sink without bytes. A write takes at most `most` bytes, and the calls numbered in `failing`, writes and
    /// finishes counted together from 0, fail.
    pub fn new(alloc: Global, most: usize, failing: &'a [u64]) -> Self
        requires { 1 ≤ most }
        ensures bytes { result.bytes ≡ [] }
        ensures most { result.most ≡ most }
        ensures failing { result.failing.now ≡ failing.entry.now }
        ensures calls { result.calls ≡ 0 }
        ensures faults { result.faults ≡ 0 }
        ensures refusals { result.refusals ≡ 0 }
        ensures finished { result.finished ≡ false }
    {
        MemSink {
            bytes: Bytes::new(alloc),
            most,
            failing,
            calls: 0,
            faults: 0,
            refusals: 0,
            finished: false,
        }
    }

    /// The bytes that were written.
    pub fn as_slice(&self) -> &[u8]
        ensures { result.now ≡ self.now.bytes }
    {
        self.bytes.as_slice()
    }

    /// How many calls failed.
    pub fn faults(&self) -> u64
        ensures { result ≡ self.now.faults }
    {
        self.faults
    }

    /// How many writes failed because memory for their bytes was refused.
    pub fn refusals(&self) -> u64
        ensures { result ≡ self.now.refusals }
    {
        self.refusals
    }

    /// Whether a finish succeeded and no write came after it.
    pub fn is_finished(&self) -> bool
        ensures { result ≡ self.now.finished }
    {
        self.finished
    }
}

impl Sink for MemSink<'_> {
    ghost written = { λ s. Some s.bytes };

    ghost faults = { λ s. s.faults };

    ghost is_finished = { λ s. IsTrue s.finished };

    fn write(&mut self, bytes: &[u8]) -> Result<usize, Failed>
        ensures counted { self.old.faults ≤ self.new.faults }
        ensures failed { OnErr result (Rose self.old.faults self.new.faults) }
        ensures kept { OnErr result (Some self.new.bytes ≡ Some self.old.bytes) }
        ensures some { IfOk result (λ n. 0 < length bytes.now → 0 < n) }
        ensures within { IfOk result (λ n. n ≤ length bytes.now) }
        ensures appends { IfOk result (λ n. Appends (Some self.old.bytes) (Some self.new.bytes) (take n bytes.now)) }
        ensures listed { Contains self.old.failing.now self.old.calls → IsErr result }
        // Any other call fails only if it counts a refusal of memory.
        ensures unlisted { IsErr result → (Contains self.old.failing.now self.old.calls → ⊥)
            → self.new.refusals ≡ min (self.old.refusals + 1) u64.MAX }
        ensures refusals { OnOk result (self.new.refusals ≡ self.old.refusals) }
        ensures most { IfOk result (λ n. n ≡ min self.old.most (length bytes.now)) }
        ensures calls { self.new.calls ≡ min (self.old.calls + 1) u64.MAX }
        ensures same_most { self.new.most ≡ self.old.most }
        ensures same_failing { self.new.failing.now ≡ self.old.failing.now }
        ensures quiet { OnOk result (self.new.faults ≡ self.old.faults) }
        ensures finished { self.new.finished ≡ false }
    {
        self.finished = false;
        if is_listed(self.failing, &mut self.calls) {
            return Err(fault(&mut self.faults));
        }
        let count = self.most.min(bytes.len());
        if self.bytes.extend(&bytes[..count]).is_err() {
            self.refusals = self.refusals.saturating_add(1);
            return Err(fault(&mut self.faults));
        }
        Ok(count)
    }

    fn finish(&mut self) -> Result<(), Failed>
        ensures counted { self.old.faults ≤ self.new.faults }
        ensures failed { OnErr result (Rose self.old.faults self.new.faults) }
        ensures kept { Some self.new.bytes ≡ Some self.old.bytes }
        ensures listed { IsErr result ↔ Contains self.old.failing.now self.old.calls }
        ensures calls { self.new.calls ≡ min (self.old.calls + 1) u64.MAX }
        ensures same_most { self.new.most ≡ self.old.most }
        ensures same_failing { self.new.failing.now ≡ self.old.failing.now }
        ensures refusals { self.new.refusals ≡ self.old.refusals }
        ensures quiet { OnOk result (self.new.faults ≡ self.old.faults) }
        ensures finished { OnOk result (IsTrue self.new.finished) }
        ensures unfinished { OnErr result (self.new.finished ≡ self.old.finished) }
    {
        if is_listed(self.failing, &mut self.calls) {
            return Err(fault(&mut self.faults));
        }
        self.finished = true;
        Ok(())
    }
}

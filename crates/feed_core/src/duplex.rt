//! A source and a sink with an agent at the other end, and the call that writes to it.
ghost use Rattle.std.specs.Prelude.{◌≡◌, ℕ, ◌<◌, ◌≤◌, Option, List, IfOk, OnOk, OnErr, take, length, refl};
ghost use Rattle.std.proofs.Common.{◌∙◌};
ghost use Rattle.ccp_base.specs.Outside.{Rose, Takes, IsAtEnd, Appends, AppendsPrefix};

use ccp_base::{Failed, Sink, Source};

/// A source and a sink together, with an agent at the other end that may wait for an answer before it sends more.
pub trait Duplex {
    // the bytes that are left to read, if they are known
    ghost remaining: { Self → Option (List ℕ) };

    // the bytes that were written, if they are known
    ghost written: { Self → Option (List ℕ) };

    // how many reads failed, up to 2^64-1
    ghost read_faults: { Self → ℕ };

    // how many writes failed, up to 2^64-1
    ghost write_faults: { Self → ℕ };

    // nothing of what was written is held back; always true if that isn't known
    ghost is_finished: { Self → Type 0 } = { λ _. Unit {0} };

    // a read is allowed: the agent waits for no answer
    ghost MayRead: { Self → Type 0 };

    // the second state comes from the first one by reads and writes
    ghost Follows: { Self → Self → Type 0 };

    /// Writes the next bytes over the front of `out` and returns how many. If `out` isn't empty, 0 means the end. The
    /// count of failed reads rises with `Failed`, and only then. It is called only where a read is allowed.
    fn read(&mut self, out: &mut [u8]) -> Result<usize, Failed>
        requires allowed { MayRead self.old }
        ensures follows { Follows self.old self.new }
        ensures written { written self.new ≡ written self.old }
        ensures write_faults { write_faults self.new ≡ write_faults self.old }
        ensures finished { is_finished self.old → is_finished self.new }
        ensures counted { read_faults self.old ≤ read_faults self.new }
        ensures quiet { OnOk result (read_faults self.new ≡ read_faults self.old) }
        ensures failed { OnErr result (Rose (read_faults self.old) (read_faults self.new)) }
        ensures kept { OnErr result (remaining self.new ≡ remaining self.old) }
        ensures within { IfOk result (λ n. n ≤ length out.old) }
        ensures taken { IfOk result (λ n. Takes (remaining self.old) (remaining self.new) (take n out.new)) }
        ensures end { IfOk result (λ n. n ≡ 0 → 0 < length out.old → IsAtEnd (remaining self.old)) };

    /// Takes bytes from the front of `bytes` and returns how many, at least one if `bytes` isn't empty.
    /// The count of failed writes rises with `Failed`, and only then.
    fn write(&mut self, bytes: &[u8]) -> Result<usize, Failed>
        ensures follows { Follows self.old self.new }
        ensures remaining { remaining self.new ≡ remaining self.old }
        ensures read_faults { read_faults self.new ≡ read_faults self.old }
        ensures counted { write_faults self.old ≤ write_faults self.new }
        ensures quiet { OnOk result (write_faults self.new ≡ write_faults self.old) }
        ensures failed { OnErr result (Rose (write_faults self.old) (write_faults self.new)) }
        ensures kept { OnErr result (written self.new ≡ written self.old) }
        ensures some { IfOk result (λ n. 0 < length bytes.now → 0 < n) }
        ensures within { IfOk result (λ n. n ≤ length bytes.now) }
        ensures appends { IfOk result (λ n. Appends (written self.old) (written self.new) (take n bytes.now)) };

    /// Hands on what was written and is still held back. The count of failed writes rises with `Failed`, and only then.
    fn finish(&mut self) -> Result<(), Failed>
        ensures follows { Follows self.old self.new }
        ensures remaining { remaining self.new ≡ remaining self.old }
        ensures read_faults { read_faults self.new ≡ read_faults self.old }
        ensures counted { write_faults self.old ≤ write_faults self.new }
        ensures quiet { OnOk result (write_faults self.new ≡ write_faults self.old) }
        ensures failed { OnErr result (Rose (write_faults self.old) (write_faults self.new)) }
        ensures kept { written self.new ≡ written self.old }
        ensures finished { OnOk result (is_finished self.new) };

    ghost follows_itself: { (d : Self) → Follows d d };

    ghost follows_on: { (first middle last : Self) → Follows first middle → Follows middle last → Follows first last };
}

/// Writes all the bytes and finishes. The count of failed writes rises with `Failed`, and only then; in that case a
/// front of the bytes was written.
pub fn hand_over<D: Duplex>(duplex: &mut D, bytes: &[u8]) -> Result<(), Failed>
    ensures follows { D.Follows duplex.old duplex.new }
    ensures remaining { D.remaining duplex.new ≡ D.remaining duplex.old }
    ensures read_faults { D.read_faults duplex.new ≡ D.read_faults duplex.old }
    ensures counted { D.write_faults duplex.old ≤ D.write_faults duplex.new }
    ensures ok { OnOk result (Appends (D.written duplex.old) (D.written duplex.new) bytes.now) }
    ensures finished { OnOk result (D.is_finished duplex.new) }
    ensures failed { OnErr result (Rose (D.write_faults duplex.old) (D.write_faults duplex.new)) }
    ensures front { OnErr result (AppendsPrefix (D.written duplex.old) (D.written duplex.new) bytes.now) }
{
    let mut done = 0;
    while done < bytes.len() {
        done += duplex.write(&bytes[done..])?;
    }
    duplex.finish()
}

/// A source and a sink, borrowed, where each may be used at any time.
#[derive(Drop)]
pub struct Pair<'s, 'k, S: Source, K: Sink> {
    pub source: &'s mut S,
    pub sink: &'k mut K,
}

impl<'s, 'k, S: Source, K: Sink> Duplex for Pair<'s, 'k, S, K> {
    ghost remaining = { λ p. S.remaining p.source.now };

    ghost written = { λ p. K.written p.sink.now };

    ghost read_faults = { λ p. S.faults p.source.now };

    ghost write_faults = { λ p. K.faults p.sink.now };

    ghost is_finished = { λ p. K.is_finished p.sink.now };

    ghost MayRead = { λ p. Unit {0} };

    ghost Follows = { λ p q. (q.source.ghost_name ≡ p.source.ghost_name) × (q.sink.ghost_name ≡ p.sink.ghost_name) };

    ghost follows_itself = { λ d. (refl, refl) };

    ghost follows_on = { λ a b c first next. (next.0 ∙ first.0, next.1 ∙ first.1) };

    fn read(&mut self, out: &mut [u8]) -> Result<usize, Failed> {
        self.source.read(out)
    }

    fn write(&mut self, bytes: &[u8]) -> Result<usize, Failed> {
        self.sink.write(bytes)
    }

    fn finish(&mut self) -> Result<(), Failed> {
        self.sink.finish()
    }
}

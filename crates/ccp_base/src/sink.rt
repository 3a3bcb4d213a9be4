//! What bytes are written to, and the call that writes them all and finishes.
ghost use Rattle.std.specs.Prelude.{◌≡◌, ℕ, ◌<◌, ◌≤◌, Option, List, IfOk, OnOk, OnErr, take, length};
ghost use Rattle.ccp_base.specs.Outside.{Rose, Appends, AppendsPrefix};

use crate::outside::Failed;

/// What bytes are written to.
pub trait Sink {
    // the bytes that were written, if the sink knows them
    ghost written: { Self → Option (List ℕ) };

    // how many writes failed, up to 2^64-1
    ghost faults: { Self → ℕ };

    // nothing of what was written is held back; always true for a sink that doesn't know
    ghost is_finished: { Self → Type 0 } = { λ _. Unit {0} };

    /// Takes bytes from the front of `bytes` and returns how many, at least one if `bytes` isn't empty.
    /// The count of faults rises with `Failed`, and only then.
    fn write(&mut self, bytes: &[u8]) -> Result<usize, Failed>
        ensures counted { faults self.old ≤ faults self.new }
        ensures quiet { OnOk result (faults self.new ≡ faults self.old) }
        ensures failed { OnErr result (Rose (faults self.old) (faults self.new)) }
        ensures kept { OnErr result (written self.new ≡ written self.old) }
        ensures some { IfOk result (λ n. 0 < length bytes.now → 0 < n) }
        ensures within { IfOk result (λ n. n ≤ length bytes.now) }
        ensures appends { IfOk result (λ n. Appends (written self.old) (written self.new) (take n bytes.now)) };

    /// Hands on what was written and is still held back. The count of faults rises with `Failed`, and only then.
    fn finish(&mut self) -> Result<(), Failed>
        ensures counted { faults self.old ≤ faults self.new }
        ensures quiet { OnOk result (faults self.new ≡ faults self.old) }
        ensures failed { OnErr result (Rose (faults self.old) (faults self.new)) }
        ensures kept { written self.new ≡ written self.old }
        ensures finished { OnOk result (is_finished self.new) };
}

/// Writes all the bytes and finishes. The count of faults rises with `Failed`, and only then; in that case a front of
/// the bytes was written.
pub fn write_all<K: Sink>(sink: &mut K, bytes: &[u8]) -> Result<(), Failed>
    ensures counted { K.faults sink.old ≤ K.faults sink.new }
    ensures quiet { OnOk result (K.faults sink.new ≡ K.faults sink.old) }
    ensures ok { OnOk result (Appends (K.written sink.old) (K.written sink.new) bytes.now) }
    ensures finished { OnOk result (K.is_finished sink.new) }
    ensures failed { OnErr result (Rose (K.faults sink.old) (K.faults sink.new)) }
    ensures front { OnErr result (AppendsPrefix (K.written sink.old) (K.written sink.new) bytes.now) }
{
    let mut done = 0;
    while done < bytes.len() {
        done += sink.write(&bytes[done..])?;
    }
    sink.finish()
}

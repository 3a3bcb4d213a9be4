//! What bytes are read from, and the call that reads all that are left, up to a limit.
ghost use Rattle.std.specs.Prelude.{◌≡◌, ◌≢◌, ℕ, ◌+◌, ◌<◌, ◌≤◌, Option, List, IfOk, OnOk, OnErr, IsErrOf, take, length};
ghost use Rattle.ccp_base.specs.Outside.{Rose, Takes, IsAtEnd, TakesOver, TakesWithin};

use crate::outside::{Failed, ReadFault};
use crate::sequence::Bytes;
use std::alloc::Global;

/// What bytes are read from.
pub trait Source {
    // the bytes that are left, if the source knows them
    ghost remaining: { Self → Option (List ℕ) };

    // how many reads failed, up to 2^64-1
    ghost faults: { Self → ℕ };

    /// Writes the next bytes over the front of `out` and returns how many. If `out` isn't empty, 0 means the end. The
    /// count of faults rises with `Failed`, and only then.
    fn read(&mut self, out: &mut [u8]) -> Result<usize, Failed>
        ensures counted { faults self.old ≤ faults self.new }
        ensures quiet { OnOk result (faults self.new ≡ faults self.old) }
        ensures failed { OnErr result (Rose (faults self.old) (faults self.new)) }
        ensures kept { OnErr result (remaining self.new ≡ remaining self.old) }
        ensures within { IfOk result (λ n. n ≤ length out.old) }
        ensures taken { IfOk result (λ n. Takes (remaining self.old) (remaining self.new) (take n out.new)) }
        ensures end { IfOk result (λ n. n ≡ 0 → 0 < length out.old → IsAtEnd (remaining self.old)) };
}

/// How many bytes a read asks for.
const PIECE: usize = 4096;

/// All the bytes that are left, at most `limit`. The count of faults rises with `Read`, and only then; `TooLong` is the
/// answer exactly if more than `limit` bytes were taken. Whatever the answer, at most one byte more than `limit` was
/// taken.
pub fn read_all<S: Source>(alloc: Global, source: &mut S, limit: usize) -> Result<Bytes, ReadFault>
    ensures counted { S.faults source.old ≤ S.faults source.new }
    ensures quiet { result ≢ Err ReadFault.Read → S.faults source.new ≡ S.faults source.old }
    ensures short { IfOk result (λ bytes. length bytes ≤ limit) }
    ensures taken { IfOk result (λ bytes. Takes (S.remaining source.old) (S.remaining source.new) bytes) }
    ensures end { IfOk result (λ bytes. IsAtEnd (S.remaining source.new)) }
    ensures read { IsErrOf result ReadFault.Read → Rose (S.faults source.old) (S.faults source.new) }
    ensures too_long { IsErrOf result ReadFault.TooLong
        → TakesOver limit (S.remaining source.old) (S.remaining source.new) }
    ensures within { result ≢ Err ReadFault.TooLong
        → TakesWithin limit (S.remaining source.old) (S.remaining source.new) }
    ensures most { TakesWithin (limit + 1) (S.remaining source.old) (S.remaining source.new) }
{
    let mut bytes = Bytes::new(alloc);
    let mut buffer = [0u8; PIECE];
    loop {
        let room = limit - bytes.len();
        let asked = room.saturating_add(1).min(PIECE);
        let Ok(count) = source.read(&mut buffer[..asked]) else {
            return Err(ReadFault::Read);
        };
        if count == 0 {
            return Ok(bytes);
        }
        if count > room {
            return Err(ReadFault::TooLong);
        }
        bytes.extend(&buffer[..count])?;
    }
}

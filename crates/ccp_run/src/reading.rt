//! How a mode reads its input to the end, within the input's limit.
ghost use Rattle.run_ending.specs.Streams.{stream_change};
ghost use Rattle.ccp_run.specs.Attempts.{IsReadWithin};

use ccp_base::{Bytes, ReadFault, Source, read_all};
use run_ending::{Limit, Refusal, Stop};
use std::alloc::Global;

/// Reads the source to its end, which comes within the limit.
pub fn read_bytes<S: Source>(alloc: Global, limit: Limit, source: &mut S) -> Result<Bytes, Stop>
    ensures { IsReadWithin limit (stream_change S.remaining S.faults source.old source.new) result }
{
    match read_all(alloc, source, limit.bytes()) {
        Ok(bytes) => Ok(bytes),
        Err(ReadFault::Read) => Err(Stop::ReadFailed),
        Err(ReadFault::TooLong) => Err(Stop::Refused(Refusal::TooLong(limit))),
        Err(ReadFault::NoMemory(error)) => Err(Stop::NoMemory(error)),
    }
}

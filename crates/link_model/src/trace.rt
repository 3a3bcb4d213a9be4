//! The trace of a link: the times at which it can send a packet, read from a text.
ghost use Rattle.std.specs.Prelude.{◌≡◌, ◌≢◌, ◌^◌, ◌<◌, Ok, Err, IfOk, IfErr, length};
ghost use Rattle.ccp_base.specs.Outside.{no_memory};

use crate::trace_text::read_lines;
use ccp_base::NoMemory;
use std::alloc::{AllocError, AllocFailed, Global};
use std::marker::Model;

/// The longest time of a trace, in milliseconds: an hour.
pub(crate) const LONGEST_MS: u32 = 3_600_000;

/// Why a text is no trace. Lines count from 1.
#[derive(Clone, Copy, PartialEq, Eq, Debug)]
pub enum TraceFault {
    /// The line is neither blank nor one whole number from 0 to 3,600,000.
    BadLine(u64),
    /// No line has a number.
    EmptyTrace,
    /// The line's number is below the one before.
    NotRising(u64),
    /// The last number is 0.
    ZeroPeriod,
    NoMemory(NoMemory),
}

impl From<AllocError> for TraceFault {
    ghost use Rattle.std.specs.Prelude.{◌≡◌};
    ghost use Rattle.link_model.specs.declared.trace.TraceFault.TheVariants as fault;

    ghost from_gives = { λ _ f. f ≡ fault.NoMemory no_memory };

    fn from(error: AllocError) -> TraceFault {
        TraceFault::NoMemory(NoMemory::from(error))
    }
}

impl From<AllocFailed<u32>> for TraceFault {
    ghost use Rattle.std.specs.Prelude.{◌≡◌};
    ghost use Rattle.link_model.specs.declared.trace.TraceFault.TheVariants as fault;

    ghost from_gives = { λ _ f. f ≡ fault.NoMemory no_memory };

    fn from(error: AllocFailed<u32>) -> TraceFault {
        TraceFault::NoMemory(NoMemory::from(error))
    }
}

/// The times, in milliseconds, at which a link has a chance to send a packet: some, not falling, the last one
/// above 0. After the last one the trace begins again. Contracts see it as the list of its times.
#[derive(Drop)]
pub struct Trace {
    times: Vec<u32>,
}

impl Model for Trace {
    ghost use Rattle.std.specs.Prelude.{List, ℕ};
    ghost use Rattle.link_model.specs.Traces.{IsTrace};

    ghost Value = { List ℕ };

    ghost view = { λ t. t.times.items };

    ghost invariant = { λ t. IsTrace t.times.items };
}

impl Trace {
    ghost use Rattle.link_model.specs.Traces.{IsTrace};
    ghost use Rattle.link_model.specs.TraceText.{trace_of};
    ghost use Rattle.link_model.specs.declared.trace.TraceFault.{TraceFault};
    ghost use Rattle.link_model.specs.declared.trace.TraceFault.TheVariants as fault;

    /// The trace of a text: a whole number from 0 to 3,600,000 a line, in decimal digits. A CR at a line's end, blanks
    /// around the number and blank lines are ignored. If several refusals hold, the error is the first one in the order
    /// of `TraceFault`: it is `NoMemory` only if the text is a trace.
    pub fn read(alloc: Global, text: &[u8]) -> Result<Trace, TraceFault>
        ensures ok { IfOk result (λ trace. trace_of text.now ≡ Ok trace) }
        ensures err { IfErr result (λ f. f ≢ fault.NoMemory no_memory → trace_of text.now ≡ Err f) }
        ensures first { (f : TraceFault) → trace_of text.now ≡ Err f → result ≡ Err f }
    {
        let reading = read_lines(alloc, text)?;
        if reading.count == 0 {
            return Err(TraceFault::EmptyTrace);
        }
        if let Some(line) = reading.fall {
            return Err(TraceFault::NotRising(line));
        }
        if reading.before == 0 {
            return Err(TraceFault::ZeroPeriod);
        }
        if let Some(error) = reading.refused {
            return Err(TraceFault::NoMemory(error));
        }
        Ok(Trace {
            times: reading.times,
        })
    }

    /// An equal trace.
    pub fn copy(&self, alloc: Global) -> Result<Trace, NoMemory>
        ensures { IfOk result (λ trace. trace ≡ self.now) }
    {
        let times = self.times.as_slice().to_vec(alloc)?;
        Ok(Trace { times })
    }

    /// The times in order.
    pub fn as_slice(&self) -> &[u32]
        ensures times { result.now ≡ self.now }
        ensures valid { IsTrace self.now }
        ensures count { length self.now < 2 ^ 64 }
    {
        self.times.as_slice()
    }
}

//! What an agent reads of a report, at the places that the program's look gives.
ghost use Rattle.std.specs.Prelude.{◌≡◌};
ghost use Rattle.ccp_base.specs.Measurement.{field_at, measurement_of};

use crate::exchange::Report;
use crate::look::Look;
use crate::values::Values;

/// What an agent reads of a report. A field that the report's program doesn't have reads as 0.
#[derive(Clone, Copy)]
pub struct Measurement {
    /// The time of the reporting acknowledgement, in microseconds.
    pub now: u64,
    /// The congestion window after it, in bytes.
    pub cwnd: u64,
    /// The bytes acknowledged.
    pub acked: u64,
    /// The packets lost.
    pub loss: u64,
    /// Not 0 after a timeout.
    pub timeout: u64,
    /// The round-trip time, in microseconds.
    pub rtt: u64,
    /// The bytes in flight.
    pub inflight: u64,
    /// The packets that were marked.
    pub ecn: u64,
}

impl Measurement {
    /// A report as its program's look has it.
    pub fn new(look: &Look, report: &Report) -> Self
        ensures { result ≡ measurement_of look.now report.entry.now }
    {
        let fields = &report.fields;
        Measurement {
            now: report.now,
            cwnd: report.cwnd,
            acked: field_at(look.acked, fields),
            loss: field_at(look.loss, fields),
            timeout: field_at(look.timeout, fields),
            rtt: field_at(look.rtt, fields),
            inflight: field_at(look.inflight, fields),
            ecn: field_at(look.ecn, fields),
        }
    }
}

/// The field at a place; 0 without a place, or for a place past the fields.
fn field_at(place: Option<u32>, fields: &Values) -> u64
    ensures { result ≡ field_at place fields.now }
{
    match place {
        Some(place) => fields.get(place).unwrap_or(0),
        None => 0,
    }
}

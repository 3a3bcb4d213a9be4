//! How the reading of an input of `drive` ends.

use ccp_base::NoMemory;
use feed_core::FeedEnd;
use run_ending::{Limit, Refusal, Stop};

/// How the reading of an input of `drive` ends.
#[derive(Drop)]
pub enum DriveEnd {
    /// The source was read to its end, its frames are whole, and no flow waits for one.
    Whole,
    Refused(Refusal),
    /// A read failed.
    ReadFailed,
    /// A write failed.
    WriteFailed,
    NoMemory(NoMemory),
}

impl From<Stop> for DriveEnd {
    ghost use Rattle.std.specs.Prelude.{◌≡◌};
    ghost use Rattle.ccp_run.specs.DriveEnds.{end_at};

    ghost from_gives = { λ stop end. end ≡ end_at stop };

    fn from(stop: Stop) -> DriveEnd {
        match stop {
            Stop::Refused(refusal) => DriveEnd::Refused(refusal),
            Stop::ReadFailed => DriveEnd::ReadFailed,
            Stop::NoMemory(error) => DriveEnd::NoMemory(error),
        }
    }
}

impl From<FeedEnd> for DriveEnd {
    ghost use Rattle.std.specs.Prelude.{◌≡◌};
    ghost use Rattle.ccp_run.specs.DriveEnds.{end_in};

    ghost from_gives = { λ frames end. end ≡ end_in frames };

    fn from(frames: FeedEnd) -> DriveEnd {
        match frames {
            FeedEnd::Whole => DriveEnd::Whole,
            FeedEnd::Bad(field, place) => DriveEnd::Refused(Refusal::Frame(field, place)),
            FeedEnd::Cut(place) => DriveEnd::Refused(Refusal::FrameCut(place)),
            FeedEnd::TooLong => DriveEnd::Refused(Refusal::TooLong(Limit::Audit)),
            FeedEnd::ReadFailed => DriveEnd::ReadFailed,
            FeedEnd::WriteFailed => DriveEnd::WriteFailed,
            FeedEnd::NoMemory(error) => DriveEnd::NoMemory(error),
        }
    }
}

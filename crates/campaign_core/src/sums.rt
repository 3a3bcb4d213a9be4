//! The sums of a row over a flow's acknowledgements: lost packets, timeouts and acknowledged bytes.
ghost use Rattle.std.specs.Prelude.{◌≡◌, []};
ghost use Rattle.campaign_core.specs.CampaignRow.{sums_of, sums_with, AreRoomy};

use ccp_base::Ack;

/// What is summed over a flow's acknowledgements.
#[derive(Clone, Copy)]
pub struct Sums {
    /// The lost packets, as the acknowledgements report them.
    pub lost: u64,
    /// How many acknowledgements are timeouts.
    pub timeouts: u64,
    /// The acknowledged bytes.
    pub acked: u64,
}

impl Sums {
    /// The sums over no acknowledgement.
    pub fn none() -> Sums
        ensures { result ≡ sums_of [] }
    {
        Sums {
            lost: 0,
            timeouts: 0,
            acked: 0,
        }
    }

    /// The sums with one more acknowledgement. They must be below 2^64.
    #[inline(always)]
    pub fn with(self, ack: &Ack) -> Sums
        requires { AreRoomy (sums_with ack.now self) }
        ensures { result ≡ sums_with ack.entry.now self }
    {
        Sums {
            lost: self.lost + ack.lost_pkts_sample,
            timeouts: self.timeouts + if ack.was_timeout { 1 } else { 0 },
            acked: self.acked + ack.bytes_acked,
        }
    }
}

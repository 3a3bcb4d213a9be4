//! What a row needs of a flow's letters beside what later letters depend on.
ghost use Rattle.std.specs.Prelude.{◌≡◌, max, []};
ghost use Rattle.campaign_core.specs.CampaignRow.{sums_of};

use crate::sums::Sums;
use flow_core::Bare;

/// What a row needs of the letters so far, beside what later letters depend on.
#[derive(Clone, Copy)]
pub struct Tally {
    pub sums: Sums,
    /// The greatest window so far, in bytes.
    pub peak: u64,
}

impl Tally {
    /// The tally of a flow that has no acknowledgement yet.
    pub fn opening(bare: &Bare) -> Tally
        ensures sums { result.sums ≡ sums_of [] }
        ensures peak { result.peak ≡ bare.now.summary.track.env.cwnd }
    {
        Tally {
            sums: Sums::none(),
            peak: bare.cwnd(),
        }
    }

    /// Raises the greatest window to the present one of the flow, if that is greater.
    #[inline(always)]
    pub fn raise_peak(&mut self, bare: &Bare)
        ensures sums { self.new.sums ≡ self.old.sums }
        ensures peak { self.new.peak ≡ max self.old.peak bare.now.summary.track.env.cwnd }
    {
        self.peak = self.peak.max(bare.cwnd());
    }
}

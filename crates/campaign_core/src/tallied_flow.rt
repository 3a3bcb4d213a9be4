//! A flow that is given its acknowledgements, with what its row needs of its letters.
ghost use Rattle.std.specs.Prelude.{◌≡◌, max, OnOk, IfOk};
ghost use Rattle.link_model.specs.Rated.{rated};
ghost use Rattle.flow_core.specs.Readings.{over_codes};
ghost use Rattle.flow_core.specs.Cores.{CoreState, with_ack};
ghost use Rattle.campaign_core.specs.CampaignRow.{sums_with, AreRoomy};
ghost use Rattle.campaign_core.specs.FlowRow.{opened, with_letter, flow_row};
ghost use Rattle.campaign_core.specs.GivenFlows.{MayMake, IsAfterHistory, Goes};

use crate::given_flow::GivenFlow;
use crate::row::Row;
use crate::tally::Tally;
use ccp_base::{Ack, NoMemory};
use flow_core::{Bare, Case, Letter};
use std::alloc::Global;

/// A flow and its tally.
#[derive(Drop)]
pub struct TalliedFlow<F: GivenFlow> {
    pub flow: F,
    pub tally: Tally,
}

impl<F: GivenFlow> TalliedFlow<F> {
    /// A flow without a letter. What its case needs of memory is reserved here.
    pub fn open(alloc: Global, case: Case) -> Result<TalliedFlow<F>, NoMemory>
        ensures { IfOk result (λ tallied. IsAfterHistory F.at (opened case) tallied.flow tallied.tally) }
    {
        let flow = F::open(alloc, case)?;
        let tally = Tally::opening(flow.bare());
        Ok(TalliedFlow { flow, tally })
    }

    /// What later letters depend on.
    #[inline(always)]
    pub fn bare(&self) -> &Bare
        ensures { result.now ≡ F.bare_of self.now.flow }
    {
        self.flow.bare()
    }

    /// Takes an acknowledgement, which has its two rates if the flow gets them. The sums with it must be below 2^64.
    #[inline(always)]
    pub fn hear(&mut self, ack: &Ack)
        requires left { MayMake F.at Letter.A self.old.flow }
        requires roomy { AreRoomy (sums_with ack.now self.old.tally.sums) }
        ensures { (whole : Ack) → ack.entry.now ≡ rated (F.gets self.old.flow) whole
            → Goes F.at (λ core. with_ack core whole) self.old.flow self.old.tally self.new.flow self.new.tally }
    {
        // before the flow hears it: its numbers are still at hand
        self.tally.sums = self.tally.sums.with(ack);
        self.flow.hear(ack);
        self.raise_peak();
    }

    /// Takes a ticket. A ticket is large and rarely taken: it has no place in the function that asks for it after each
    /// acknowledgement.
    #[inline(never)]
    pub fn take(&mut self, alloc: Global) -> Result<(), NoMemory>
        requires { MayMake F.at Letter.T self.old.flow }
        ensures { OnOk result (Goes F.at (with_letter Letter.T)
            self.old.flow self.old.tally self.new.flow self.new.tally) }
    {
        self.flow.take(alloc)?;
        self.raise_peak();
        Ok(())
    }

    /// Applies the answer to the ticket that is out.
    #[inline(never)]
    pub fn settle(&mut self)
        requires { MayMake F.at Letter.C self.old.flow }
        ensures { Goes F.at (with_letter Letter.C) self.old.flow self.old.tally self.new.flow self.new.tally }
    {
        self.flow.settle();
        self.raise_peak();
    }

    /// Raises the greatest window to the present one, if that is greater.
    #[inline(always)]
    fn raise_peak(&mut self)
        ensures flow { self.new.flow ≡ self.old.flow }
        ensures sums { self.new.tally.sums ≡ self.old.tally.sums }
        ensures peak { self.new.tally.peak ≡ max self.old.tally.peak (F.bare_of self.old.flow).summary.track.env.cwnd }
    {
        self.tally.raise_peak(self.flow.bare());
    }

    /// The flow's row.
    pub fn row(&self) -> Row
        ensures { (core : CoreState) → IsAfterHistory F.at core self.now.flow self.now.tally
            → result ≡ flow_row over_codes core }
    {
        Row::of(self.flow.bare(), self.tally.sums, self.tally.peak)
    }
}

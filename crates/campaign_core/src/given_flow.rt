//! Flows that are given their acknowledgements, with their history or without.
ghost use Rattle.std.specs.Prelude.{◌≡◌, Bool, true, refl, IfOk, OnOk};
ghost use Rattle.link_model.specs.Rated.{rated};
ghost use Rattle.flow_core.specs.Cores.{CoreState, with_ack};
ghost use Rattle.flow_core.specs.ReadsRates.{case_reads_rates};
ghost use Rattle.flow_core.specs.Bares.{BareState};
ghost use Rattle.flow_core.specs.BookFlows.{book_flow_of};
ghost use Rattle.campaign_core.specs.FlowRow.{opened, with_letter};
ghost use Rattle.campaign_core.specs.GivenFlows.{bare_after, bare_flow_at, MayMake, Makes};

use agent_core::calls::answer;
use ccp_base::{Ack, NoMemory};
use flow_core::{Bare, BookFlow, Case, Core, Letter, TakeFault};
use std::alloc::Global;

/// A flow that is given its acknowledgements. Its type says what it keeps of them and of its word: the whole history,
/// what a book has of it, or only what later letters depend on.
pub trait GivenFlow: Drop {
    /// The flow after a history.
    ghost at: { CoreState → Self };

    /// What later letters depend on.
    ghost bare_of: { Self → BareState };

    /// Whether the flow gets the two rates of its acknowledgements.
    ghost gets: { Self → Bool };

    /// A flow without a letter.
    fn open(alloc: Global, case: Case) -> Result<Self, NoMemory>
        ensures { IfOk result (λ flow. flow ≡ at (opened case)) };

    /// What later letters depend on.
    fn bare(&self) -> &Bare
        ensures { result.now ≡ bare_of self.now };

    /// Whether the flow gets the two rates of its acknowledgements.
    fn gets_rates(&self) -> bool
        ensures { result ≡ gets self.now };

    /// Takes an acknowledgement. If the flow doesn't get the rates, it does the same with them.
    fn hear(&mut self, ack: &Ack)
        requires { MayMake at Letter.A self.old }
        ensures made { Makes at (λ core. with_ack core ack.entry.now) self.old self.new }
        ensures unread { (whole : Ack) → ack.entry.now ≡ rated (gets self.old) whole
            → Makes at (λ core. with_ack core whole) self.old self.new };

    /// Takes a ticket.
    fn take(&mut self, alloc: Global) -> Result<(), NoMemory>
        requires { MayMake at Letter.T self.old }
        ensures { OnOk result (Makes at (with_letter Letter.T) self.old self.new) };

    /// Applies the answer to the ticket that is out.
    fn settle(&mut self)
        requires { MayMake at Letter.C self.old }
        ensures { Makes at (with_letter Letter.C) self.old self.new };

    ghost bare_law: { (core : CoreState) → bare_of (at core) ≡ bare_after core };
}

/// A flow with its history, from which a book with its acknowledgements is made.
impl GivenFlow for Core {
    ghost at = { λ core. core };

    ghost bare_of = { bare_after };

    ghost gets = { λ core. true };

    ghost bare_law = { λ core. refl };

    fn open(alloc: Global, case: Case) -> Result<Core, NoMemory> {
        Core::new(alloc, case)
    }

    fn bare(&self) -> &Bare {
        Core::bare(self)
    }

    /// Its book has the whole acknowledgements.
    fn gets_rates(&self) -> bool {
        true
    }

    fn hear(&mut self, ack: &Ack) {
        let Ok(_) = Core::hear(self, ack) else {
            unreachable!()
        };
    }

    fn take(&mut self, alloc: Global) -> Result<(), NoMemory> {
        match Core::take(self, alloc) {
            Ok(_) => Ok(()),
            Err(TakeFault::NoMemory(error)) => Err(error),
            // A ticket is legal here: none is out, and something is left to take.
            Err(TakeFault::NotYet) => unreachable!(),
            Err(TakeFault::Out(_)) => unreachable!(),
        }
    }

    fn settle(&mut self) {
        let Some(ticket) = self.out() else {
            unreachable!()
        };
        let Ok(()) = Core::settle(self, answer(ticket)) else {
            unreachable!()
        };
    }
}

/// A flow with what its book has of its history. It takes no memory after its opening but for its tickets.
impl GivenFlow for BookFlow {
    ghost at = { book_flow_of };

    ghost bare_of = { λ flow. flow.bare };

    ghost gets = { λ flow. case_reads_rates flow.bare.case };

    ghost bare_law = { λ core. refl };

    fn open(alloc: Global, case: Case) -> Result<BookFlow, NoMemory> {
        BookFlow::new(alloc, case)
    }

    fn bare(&self) -> &Bare {
        BookFlow::bare(self)
    }

    fn gets_rates(&self) -> bool {
        self.reads_rates()
    }

    #[inline(always)]
    fn hear(&mut self, ack: &Ack) {
        BookFlow::hear(self, ack);
    }

    fn take(&mut self, alloc: Global) -> Result<(), NoMemory> {
        match BookFlow::take(self, alloc) {
            Ok(_) => Ok(()),
            Err(error) => Err(error),
        }
    }

    fn settle(&mut self) {
        let Some(ticket) = BookFlow::bare(self).out() else {
            unreachable!()
        };
        BookFlow::settle(self, &answer(ticket));
    }
}

/// A flow without its history.
#[derive(Drop)]
pub struct BareFlow {
    pub bare: Bare,
    /// Whether a program of its case reads a rate.
    pub reads_rates: bool,
}

/// It takes no memory after its opening.
impl GivenFlow for BareFlow {
    ghost at = { bare_flow_at };

    ghost bare_of = { λ flow. flow.bare };

    ghost gets = { λ flow. flow.reads_rates };

    ghost bare_law = { λ core. refl };

    fn open(alloc: Global, case: Case) -> Result<BareFlow, NoMemory> {
        let bare = Bare::new(alloc, case)?;
        let reads_rates = bare.case().reads_rates();
        Ok(BareFlow { bare, reads_rates })
    }

    fn bare(&self) -> &Bare {
        &self.bare
    }

    fn gets_rates(&self) -> bool {
        self.reads_rates
    }

    #[inline(always)]
    fn hear(&mut self, ack: &Ack) {
        self.bare.hear(ack);
    }

    fn take(&mut self, _alloc: Global) -> Result<(), NoMemory> {
        self.bare.issue();
        Ok(())
    }

    fn settle(&mut self) {
        self.bare.consult();
    }
}

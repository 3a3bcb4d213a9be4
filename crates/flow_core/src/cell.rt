//! A flow with its link: each call makes one letter of its word, and its end gives the book.
ghost use Rattle.std.specs.Prelude.{◌≡◌, ◌+◌, ◌-◌, ◌<◌, ◌≤◌, ◌↔◌, ◌∷◌, [], ◌++◌, ℕ, true, Some, Err, slice_get, length};
ghost use Rattle.std.specs.Prelude.{IsOk, IsErr, IfOk, IfErr, OnOk, OnErr};
ghost use Rattle.flow_core.specs.World.{track_of, after_take, after_answer};
ghost use Rattle.flow_core.specs.Words.{is_still, legal, is_complete};
ghost use Rattle.flow_core.specs.Books.{IsBookOf};
ghost use Rattle.flow_core.specs.Cells.{flow_at, world_at, bare_at, heard_at, acked_at, ran_at, out_at, out_number_at};
ghost use Rattle.flow_core.specs.Cells.{IsComplete, StateHoldsForSources};

use crate::bare::Bare;
use crate::book::Book;
use crate::case::Case;
use crate::cores::{Core, Ended, Stale, TakeFault};
use crate::letter::Letter;
use agent_core::{Answer, Ticket};
use ccp_base::{Ack, NoMemory};
use fold_machine::{Acked, Steps};
use link_model::Link;
use std::alloc::Global;
use std::marker::{Brand, Model};
use std::sync::ledger::{Blank, Ledger};

/// One flow: it has its link, which gives it its acknowledgements.
#[derive(Drop)]
pub struct Cell {
    core: Core,
    link: Link,
}

impl Model for Cell {
    ghost use Rattle.flow_core.specs.Cells.{CellState};

    ghost Value = { CellState };

    ghost use Rattle.flow_core.specs.Cells.{IsCell};

    ghost view = { λ c. record { case = c.core.case; word = c.core.word } };

    ghost invariant = { λ c. IsCell c.core c.link };
}

impl Cell {
    /// A flow without a letter. The word, the acknowledgements, the outbox, the link's packets in flight and a place
    /// for one fault per acknowledgement of the case are reserved here.
    pub fn new(alloc: Global, case: Case) -> Result<Cell, NoMemory>
        ensures { IfOk result (λ cell. cell ≡ record { case = case; word = [] }) }
    {
        let core = Core::new(alloc, case)?;
        match core.case().open_link(alloc) {
            Ok(link) => Ok(Cell { core, link }),
            Err(fault) => {
                drop(core);
                Err(fault)
            }
        }
    }

    /// Takes the link's next acknowledgement. Ended if and only if all acknowledgements are in; nothing changes then.
    /// `steps` counts the instructions that are run.
    pub fn ack<L: Ledger>(&mut self, steps: &mut Steps<L>) -> Result<Acked, Ended>
        ensures ended { IsErr result ↔ (self.old.case.acks ≤ length (world_at self.old).acks) }
        ensures ok { OnOk result (self.new ≡ record self.old { word = self.old.word ++ Letter.A ∷ [] }) }
        ensures world { OnOk result (world_at self.new ≡ heard_at self.old) }
        ensures acked { IfOk result (λ acked. acked ≡ acked_at self.old) }
        ensures steps { OnOk result (steps.new ≡ steps.old + ran_at self.old) }
        ensures unchanged { OnErr result (self.new ≡ self.old) }
        ensures idle { OnErr result (steps.new ≡ steps.old) }
    {
        if self.core.acks() >= self.core.case().acks {
            return Err(Ended);
        }
        let window = self.core.cwnd();
        let ack = self.link.next(window);
        let Ok(acked) = self.core.ack(&ack, steps) else {
            unreachable!()
        };
        Ok(acked)
    }

    /// As `ack`, without a count of the instructions.
    #[inline(always)]
    pub fn hear(&mut self) -> Result<Acked, Ended>
        ensures ended { IsErr result ↔ (self.old.case.acks ≤ length (world_at self.old).acks) }
        ensures ok { OnOk result (self.new ≡ record self.old { word = self.old.word ++ Letter.A ∷ [] }) }
        ensures world { OnOk result (world_at self.new ≡ heard_at self.old) }
        ensures acked { IfOk result (λ acked. acked ≡ acked_at self.old) }
        ensures unchanged { OnErr result (self.new ≡ self.old) }
    {
        self.hear_in_ledger::<Brand>(Blank::new(1))
    }

    // A function of its own: its two calls have one ledger, which the proof of `hear` picks.
    /// As `ack`, with a counter that nobody reads, which `blank` opens.
    #[inline(always)]
    fn hear_in_ledger<L: Ledger>(&mut self, blank: Blank) -> Result<Acked, Ended>
        requires ledger { (blank.name ≡ L.name) × (blank.parts ≡ L.parts) × (0 < blank.parts) }
        ensures ended { IsErr result ↔ (self.old.case.acks ≤ length (world_at self.old).acks) }
        ensures ok { OnOk result (self.new ≡ record self.old { word = self.old.word ++ Letter.A ∷ [] }) }
        ensures world { OnOk result (world_at self.new ≡ heard_at self.old) }
        ensures acked { IfOk result (λ acked. acked ≡ acked_at self.old) }
        ensures unchanged { OnErr result (self.new ≡ self.old) }
    {
        let mut steps = Steps::<L>::new(blank);
        self.ack(&mut steps)
    }

    /// Takes the oldest report, or else the untold fault notice, as a ticket. NotYet if and only if no ticket is out
    /// and nothing can be taken, Out if and only if that ticket is out; nothing changes then, nor if memory runs out.
    /// What the answer's settling needs is reserved here.
    pub fn take(&mut self, alloc: Global) -> Result<Ticket, TakeFault>
        ensures not_yet { (result ≡ Err TakeFault.NotYet) ↔ (is_still (world_at self.old) ≡ true) }
        ensures out { (n : ℕ) → (result ≡ Err (TakeFault.Out n)) ↔ (out_number_at self.old ≡ Some n) }
        ensures ok { OnOk result (self.new ≡ record self.old { word = self.old.word ++ Letter.T ∷ [] }) }
        ensures world { OnOk result (world_at self.new ≡ after_take (world_at self.old)) }
        ensures ticket { IfOk result (λ ticket. out_at self.new ≡ Some ticket) }
        ensures unchanged { OnErr result (self.new ≡ self.old) }
    {
        self.core.take(alloc)
    }

    /// Applies the answer to the ticket that is out. Stale if and only if the answer's ticket isn't that one; nothing
    /// changes then.
    pub fn settle(&mut self, answer: Answer) -> Result<(), Stale>
        ensures settled { IsOk result ↔ (out_at self.old ≡ Some answer) }
        ensures ok { OnOk result (self.new ≡ record self.old { word = self.old.word ++ Letter.C ∷ [] }) }
        ensures world { OnOk result (world_at self.new ≡ after_answer (flow_at self.old) (world_at self.old)) }
        ensures stale { IfErr result (λ stale. (stale.answer ≡ answer) × (stale.out ≡ out_number_at self.old)) }
        ensures unchanged { OnErr result (self.new ≡ self.old) }
    {
        self.core.settle(answer)
    }

    /// Whether all acknowledgements are in, nothing can be taken and no ticket is out.
    pub fn is_complete(&self) -> bool
        ensures { result ≡ is_complete (flow_at self.now) (world_at self.now) }
    {
        self.bare().is_done()
    }

    /// How many acknowledgements are in.
    pub fn acks(&self) -> u32
        ensures { result ≡ length (world_at self.now).acks }
    {
        self.bare().acks()
    }

    /// How many reports wait.
    pub fn waiting(&self) -> u32
        ensures { result ≡ length (world_at self.now).waiting }
    {
        self.core.waiting()
    }

    /// The present congestion window, in bytes.
    pub fn cwnd(&self) -> u64
        ensures { result ≡ (track_of (flow_at self.now) (world_at self.now)).env.cwnd }
    {
        self.bare().cwnd()
    }

    /// What later letters depend on.
    pub fn bare(&self) -> &Bare
        ensures { result.now ≡ bare_at self.now }
    {
        self.core.bare()
    }

    /// The flow's case, for which each letter of the word is legal at its point. For all programs that its codes
    /// simulate, the flow's state is the one over these sources.
    pub fn case(&self) -> &Case
        ensures case { result.now ≡ self.now.case }
        ensures legal { legal (flow_at self.now) self.now.case.link self.now.word ≡ true }
        ensures lifted { StateHoldsForSources self.now }
    {
        self.core.case()
    }

    /// The last acknowledgement, if there is one.
    pub fn last(&self) -> Option<Ack>
        ensures { result ≡ slice_get (world_at self.now).acks (length (world_at self.now).acks - 1) }
    {
        self.core.last()
    }

    /// The ticket that is out, if one is.
    pub fn out(&self) -> Option<Ticket>
        ensures { result ≡ out_at self.now }
    {
        self.core.out()
    }

    /// The result of the history. The word must be complete.
    pub fn finish(self) -> Book
        requires { IsComplete self }
        ensures case { result.case ≡ self.case }
        ensures word { result.word ≡ self.word }
        ensures legal { legal (flow_at self) self.case.link self.word ≡ true }
        ensures book { IsBookOf (flow_at self) (world_at self) result }
        ensures lifted { StateHoldsForSources self }
    {
        self.core.finish().book
    }
}

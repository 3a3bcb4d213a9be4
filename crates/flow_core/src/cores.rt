//! A flow without its link: its caller gives it each acknowledgement, and its end gives the book.
ghost use Rattle.std.specs.Prelude.{◌≡◌, ◌+◌, ◌-◌, ◌<◌, ◌≤◌, ◌↔◌, ◌∷◌, [], ◌++◌, ℕ, true, Some, option_map, slice_get};
ghost use Rattle.std.specs.Prelude.{length, Err, IsTrue, IsOk, IsErr, IfOk, IfErr, OnOk, OnErr};
ghost use Rattle.ccp_base.specs.Outside.{no_memory};
ghost use Rattle.flow_core.specs.World.{track_of, after_take, after_answer};
ghost use Rattle.flow_core.specs.Words.{is_still, is_legal, legal_over};
ghost use Rattle.flow_core.specs.Books.{IsBookOf};
ghost use Rattle.flow_core.specs.Summaries.{summary};
ghost use Rattle.flow_core.specs.Cores.{flow_in, world_in, with_ack, heard_in, acked_with, ran_in, out_in, out_number};

use crate::bare::Bare;
use crate::book::Given;
use crate::book_flow::BookFlow;
use crate::case::Case;
use crate::letter::Letter;
use agent_core::{Answer, Ticket};
use ccp_base::{Ack, NoMemory};
use flow_lists::ReservedList;
use fold_machine::{Acked, Steps};
use std::alloc::Global;
use std::marker::{Brand, Model};
use std::sync::ledger::{Blank, Ledger};

/// All acknowledgements of the case are in.
#[derive(Clone, Copy, PartialEq, Eq, Debug)]
pub struct Ended;

/// Why no ticket is taken.
#[derive(Clone, Copy, PartialEq, Eq, Debug)]
pub enum TakeFault {
    /// No ticket is out, no report waits and no notice is untold.
    NotYet,
    /// The ticket with this number is out.
    Out(u32),
    NoMemory(NoMemory),
}

impl From<NoMemory> for TakeFault {
    ghost use Rattle.flow_core.specs.declared.cores.TakeFault.TheVariants.{NoMemory};

    ghost from_gives = { λ _ e. e ≡ NoMemory no_memory };

    fn from(error: NoMemory) -> Self {
        TakeFault::NoMemory(error)
    }
}

/// The answer's ticket isn't the one that is out. The answer is handed back, with the number of the ticket that is
/// out, if one is.
#[derive(Drop)]
pub struct Stale {
    pub answer: Answer,
    pub out: Option<u32>,
}

/// A flow without its link: it is given each acknowledgement, and keeps them all.
#[derive(Drop)]
pub struct Core {
    flow: BookFlow,
    acks: ReservedList<Ack>,
}

impl Model for Core {
    ghost use Rattle.flow_core.specs.Cores.{CoreState};

    ghost Value = { CoreState };

    ghost use Rattle.flow_core.specs.Journals.{IsCore};

    ghost view = { λ c. record { case = c.flow.bare.case; acks = c.acks.items; word = c.flow.word } };

    ghost invariant = { λ c. IsCore c.flow c.acks };
}

impl Core {
    /// A flow without a letter. The word, the acknowledgements, the outbox and a place for one fault per
    /// acknowledgement of the case are reserved here.
    pub fn new(alloc: Global, case: Case) -> Result<Core, NoMemory>
        ensures { IfOk result (λ core. core ≡ record { case = case; acks = []; word = [] }) }
    {
        let flow = BookFlow::new(alloc, case)?;
        match ReservedList::with_room(alloc, flow.bare().case().acks as usize) {
            Ok(acks) => Ok(Core { flow, acks }),
            Err(fault) => {
                drop(flow);
                Err(fault)
            }
        }
    }

    /// Takes an acknowledgement. Ended if and only if all of the case's acknowledgements are in; nothing changes then.
    /// `steps` counts the instructions that are run.
    pub fn ack<L: Ledger>(&mut self, ack: &Ack, steps: &mut Steps<L>) -> Result<Acked, Ended>
        ensures ended { IsErr result ↔ (self.old.case.acks ≤ length self.old.acks) }
        ensures ok { OnOk result (self.new ≡ with_ack self.old ack.entry.now) }
        ensures world { OnOk result (world_in self.new ≡ heard_in self.old ack.entry.now) }
        ensures acked { IfOk result (λ acked. acked ≡ acked_with self.old ack.entry.now) }
        ensures steps { OnOk result (steps.new ≡ steps.old + ran_in self.old ack.entry.now) }
        ensures unchanged { OnErr result (self.new ≡ self.old) }
        ensures idle { OnErr result (steps.new ≡ steps.old) }
    {
        if self.acks() >= self.case().acks {
            return Err(Ended);
        }
        let acked = self.flow.ack(ack, steps);
        self.acks.push(*ack);
        Ok(acked)
    }

    /// As `ack`, without a count of the instructions.
    #[inline(always)]
    pub fn hear(&mut self, ack: &Ack) -> Result<Acked, Ended>
        ensures ended { IsErr result ↔ (self.old.case.acks ≤ length self.old.acks) }
        ensures ok { OnOk result (self.new ≡ with_ack self.old ack.entry.now) }
        ensures world { OnOk result (world_in self.new ≡ heard_in self.old ack.entry.now) }
        ensures acked { IfOk result (λ acked. acked ≡ acked_with self.old ack.entry.now) }
        ensures unchanged { OnErr result (self.new ≡ self.old) }
    {
        self.hear_in_ledger::<Brand>(ack, Blank::new(1))
    }

    // A function of its own: its two calls have one ledger, which the proof of `hear` picks.
    /// As `ack`, with a counter that nobody reads, which `blank` opens.
    #[inline(always)]
    fn hear_in_ledger<L: Ledger>(&mut self, ack: &Ack, blank: Blank) -> Result<Acked, Ended>
        requires ledger { (blank.name ≡ L.name) × (blank.parts ≡ L.parts) × (0 < blank.parts) }
        ensures ended { IsErr result ↔ (self.old.case.acks ≤ length self.old.acks) }
        ensures ok { OnOk result (self.new ≡ with_ack self.old ack.entry.now) }
        ensures world { OnOk result (world_in self.new ≡ heard_in self.old ack.entry.now) }
        ensures acked { IfOk result (λ acked. acked ≡ acked_with self.old ack.entry.now) }
        ensures unchanged { OnErr result (self.new ≡ self.old) }
    {
        let mut steps = Steps::<L>::new(blank);
        self.ack(ack, &mut steps)
    }

    /// Takes the oldest report, or else the untold fault notice, as a ticket. NotYet if and only if no ticket is out
    /// and nothing can be taken, Out if and only if that ticket is out; nothing changes then, nor if memory runs out.
    /// What the answer's settling needs is reserved here.
    pub fn take(&mut self, alloc: Global) -> Result<Ticket, TakeFault>
        ensures not_yet { (result ≡ Err TakeFault.NotYet) ↔ (is_still (world_in self.old) ≡ true) }
        ensures out { (n : ℕ) → (result ≡ Err (TakeFault.Out n)) ↔ (out_number self.old ≡ Some n) }
        ensures ok { OnOk result (self.new ≡ record self.old { word = self.old.word ++ Letter.T ∷ [] }) }
        ensures world { OnOk result (world_in self.new ≡ after_take (world_in self.old)) }
        ensures ticket { IfOk result (λ ticket. out_in self.new ≡ Some ticket) }
        ensures unchanged { OnErr result (self.new ≡ self.old) }
    {
        if let Some(number) = self.bare().out_number() {
            return Err(TakeFault::Out(number));
        }
        if !self.may_take() {
            return Err(TakeFault::NotYet);
        }
        let ticket = self.flow.take(alloc)?;
        Ok(ticket)
    }

    /// Applies the answer to the ticket that is out. Stale if and only if the answer's ticket isn't that one; nothing
    /// changes then.
    pub fn settle(&mut self, answer: Answer) -> Result<(), Stale>
        ensures settled { IsOk result ↔ (out_in self.old ≡ Some answer) }
        ensures ok { OnOk result (self.new ≡ record self.old { word = self.old.word ++ Letter.C ∷ [] }) }
        ensures world { OnOk result (world_in self.new ≡ after_answer (flow_in self.old) (world_in self.old)) }
        ensures stale { IfErr result (λ stale. (stale.answer ≡ answer) × (stale.out ≡ out_number self.old)) }
        ensures unchanged { OnErr result (self.new ≡ self.old) }
    {
        if !self.is_out(answer.ticket()) {
            let out = self.out_number();
            return Err(Stale { answer, out });
        }
        self.apply(&answer);
        Ok(())
    }

    // A function of its own: it has the answer's ticket by reference, so that none of its exits drops the answer.
    /// Whether this ticket is the one that is out.
    fn is_out(&self, ticket: &Ticket) -> bool
        ensures { IsTrue result ↔ (out_in self.now ≡ Some ticket.now) }
    {
        let Some(out) = self.out() else {
            return false;
        };
        out.same(ticket)
    }

    /// The number of the ticket that is out, if one is.
    fn out_number(&self) -> Option<u32>
        ensures { result ≡ out_number self.now }
    {
        let Some(ticket) = self.out() else {
            return None;
        };
        Some(ticket.number)
    }

    /// Applies the answer to the ticket that is out.
    fn apply(&mut self, answer: &Answer)
        requires { out_in self.old ≡ Some answer.now }
        ensures ok { self.new ≡ record self.old { word = self.old.word ++ Letter.C ∷ [] } }
        ensures world { world_in self.new ≡ after_answer (flow_in self.old) (world_in self.old) }
    {
        self.flow.settle(answer);
    }

    /// The ticket that is out, if one is.
    pub fn out(&self) -> Option<Ticket>
        ensures { result ≡ out_in self.now }
    {
        self.bare().out()
    }

    /// Whether a ticket is out.
    pub fn has_out(&self) -> bool
        ensures { result ≡ is_legal (flow_in self.now) (world_in self.now) Letter.C }
    {
        self.bare().has_out()
    }

    /// Whether a ticket may be taken: none is out, and a report waits or a notice is untold.
    pub fn may_take(&self) -> bool
        ensures { result ≡ is_legal (flow_in self.now) (world_in self.now) Letter.T }
    {
        self.bare().may_take()
    }

    /// The present congestion window, in bytes.
    pub fn cwnd(&self) -> u64
        ensures { result ≡ (track_of (flow_in self.now) (world_in self.now)).env.cwnd }
    {
        self.bare().cwnd()
    }

    /// How many acknowledgements are in.
    pub fn acks(&self) -> u32
        ensures { result ≡ length self.now.acks }
    {
        self.flow.bare().acks()
    }

    /// What later letters depend on.
    pub fn bare(&self) -> &Bare
        ensures case { result.now.case ≡ self.now.case }
        ensures summary { result.now.summary ≡ summary (flow_in self.now) (world_in self.now) }
    {
        self.flow.bare()
    }

    /// The acknowledgements that the flow was given, in order. Its letters take all of them.
    pub fn given(&self) -> &[Ack]
        ensures given { result.now ≡ self.now.acks }
        ensures taken { (world_in self.now).acks ≡ self.now.acks }
    {
        self.acks.as_slice()
    }

    /// The last acknowledgement, if there is one.
    pub fn last(&self) -> Option<Ack>
        ensures { result ≡ slice_get self.now.acks (length self.now.acks - 1) }
    {
        self.acks.last().copied()
    }

    /// How many reports wait.
    pub fn waiting(&self) -> u32
        ensures { result ≡ length (world_in self.now).waiting }
    {
        self.bare().waiting()
    }

    /// Whether no ticket is out and nothing can be taken.
    pub fn is_still(&self) -> bool
        ensures { result ≡ is_still (world_in self.now) }
    {
        self.bare().is_idle()
    }

    /// The flow's case, for which each letter of the word is legal at its point.
    pub fn case(&self) -> &Case
        ensures case { result.now ≡ self.now.case }
        ensures legal { legal_over (flow_in self.now) self.now.acks self.now.word ≡ true }
    {
        self.flow.bare().case()
    }

    /// The result of the history. No ticket may be out, and nothing may be left to take.
    pub fn finish(self) -> Given
        requires { is_still (world_in self) ≡ true }
        ensures case { result.book.case ≡ self.case }
        ensures word { result.book.word ≡ self.word }
        ensures acks { result.acks ≡ self.acks }
        ensures legal { legal_over (flow_in self) self.acks self.word ≡ true }
        ensures book { IsBookOf (flow_in self) (world_in self) result.book }
    {
        let book = self.flow.finish();
        let acks = self.acks.into_sequence();
        Given { book, acks }
    }
}

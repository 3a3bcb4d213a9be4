//! A flow without its link that keeps what its book needs, and none of the acknowledgements that it is given.
ghost use Rattle.std.specs.Prelude.{◌≡◌, ◌+◌, [], true, Some, IfOk, OnOk, OnErr};
ghost use Rattle.link_model.specs.Rated.{rated};
ghost use Rattle.flow_core.specs.Readings.{over_codes};
ghost use Rattle.flow_core.specs.ReadsRates.{case_reads_rates};
ghost use Rattle.flow_core.specs.Cores.{acked_as};
ghost use Rattle.flow_core.specs.Summaries.{outcome_at, may_make, is_idle};
ghost use Rattle.flow_core.specs.Bares.{told_ticket, instructions_at};
ghost use Rattle.flow_core.specs.BookFlows.{book_flow_of, new_notice, line_after, book_heard, book_taken};
ghost use Rattle.flow_core.specs.BookFlows.{book_answered, EndsAs};
ghost use Rattle.flow_core.specs.Journals.{taken_at};

use crate::bare::Bare;
use crate::book::{Book, EpochLine};
use crate::case::Case;
use crate::journal::Journal;
use crate::letter::Letter;
use agent_core::{Answer, Ticket};
use ccp_base::{Ack, NoMemory, Notice};
use fold_machine::{Acked, Steps};
use std::alloc::Global;
use std::marker::Model;
use std::sync::ledger::Ledger;

/// A flow without its link that keeps what its book needs: it doesn't keep the acknowledgements that it is given.
#[derive(Drop)]
pub struct BookFlow {
    bare: Bare,
    /// Whether a program of its case reads a rate.
    reads_rates: bool,
    journal: Journal,
}

impl Model for BookFlow {
    ghost use Rattle.flow_core.specs.BookFlows.{BookFlowState};

    ghost Value = { BookFlowState };

    ghost use Rattle.flow_core.specs.Journals.{IsBookFlow};

    ghost view = { λ f. record {
      bare = f.bare;
      word = f.journal.word.items;
      tickets = f.journal.tickets.items;
      epochs = f.journal.epochs.items;
      faults = f.journal.faults.items;
    } };

    ghost invariant = { λ f. IsBookFlow f.bare f.reads_rates f.journal };
}

// A function of its own: the proofs of `ack` and `hear` cite its clause, in place of a case for each answer.
/// The notice of an acknowledgement's fault, by the machine's answer and the flow after it; None if it had no fault.
fn new_notice(acked: Acked, bare: &Bare) -> Option<Notice>
    ensures { result ≡ new_notice acked bare.now.summary.untold }
{
    match acked {
        Acked::Faulted(_, _) => bare.untold(),
        Acked::Quiet | Acked::Reported | Acked::Held | Acked::Stopped => None,
    }
}

// A function of its own: the proof of `settle` cites its clause.
/// At how many acknowledgements the ticket that is out was taken, 0 if none is out.
fn taken_at(bare: &Bare) -> u32
    ensures { result ≡ taken_at bare.now.summary }
{
    bare.taken().unwrap_or(0)
}

// A function of its own: the proof of `settle` cites its clause, in place of a case for each branch.
/// The line of the epoch that began after the one with this number, if one did.
fn line_after(epoch: u32, bare: &Bare) -> Option<EpochLine>
    ensures { result ≡ line_after epoch bare.now.summary }
{
    if epoch < bare.epoch() {
        Some(bare.begun_line())
    } else {
        None
    }
}

impl BookFlow {
    /// A flow without a letter. The word, the outbox and a place for one fault per acknowledgement of the case are
    /// reserved here.
    pub fn new(alloc: Global, case: Case) -> Result<BookFlow, NoMemory>
        ensures { IfOk result (λ flow. flow ≡ book_flow_of (record { case = case; acks = []; word = [] })) }
    {
        let bare = Bare::new(alloc, case)?;
        let reads_rates = bare.case().reads_rates();
        match Journal::open(alloc, bare.case().acks, bare.begun_line()) {
            Ok(journal) => Ok(BookFlow {
                bare,
                reads_rates,
                journal,
            }),
            Err(fault) => {
                drop(bare);
                Err(fault)
            }
        }
    }

    /// What later letters depend on.
    pub fn bare(&self) -> &Bare
        ensures { result.now ≡ self.now.bare }
    {
        &self.bare
    }

    /// Whether a program of the flow's case reads one of the two rates of an acknowledgement.
    pub fn reads_rates(&self) -> bool
        ensures { result ≡ case_reads_rates self.now.bare.case }
    {
        self.reads_rates
    }

    /// Takes an acknowledgement. One must be left. `steps` counts the instructions that are run.
    #[inline(always)]
    pub fn ack<L: Ledger>(&mut self, ack: &Ack, steps: &mut Steps<L>) -> Acked
        requires { may_make (over_codes self.old.bare.case) self.old.bare.summary Letter.A ≡ true }
        ensures ok { self.new ≡ book_heard ack.entry.now self.old }
        ensures acked { result
            ≡ acked_as (outcome_at (over_codes self.old.bare.case) ack.entry.now self.old.bare.summary).0 }
        ensures steps { steps.new
            ≡ steps.old + instructions_at self.old.bare.case ack.entry.now self.old.bare.summary }
    {
        self.bare.range();
        let acked = self.bare.ack(ack, steps);
        let fault = new_notice(acked, &self.bare);
        self.journal.put_ack(fault);
        acked
    }

    /// As `ack`, without a count of the instructions. Without its rates an acknowledgement does the same, if the programs
    /// of the flow's case read neither.
    #[inline(always)]
    pub fn hear(&mut self, ack: &Ack) -> Acked
        requires { may_make (over_codes self.old.bare.case) self.old.bare.summary Letter.A ≡ true }
        ensures ok { self.new ≡ book_heard ack.entry.now self.old }
        ensures acked { result
            ≡ acked_as (outcome_at (over_codes self.old.bare.case) ack.entry.now self.old.bare.summary).0 }
        ensures unread { (whole : Ack) → ack.entry.now ≡ rated (case_reads_rates self.old.bare.case) whole
            → self.new ≡ book_heard whole self.old }
    {
        self.bare.range();
        let acked = self.bare.hear(ack);
        let fault = new_notice(acked, &self.bare);
        self.journal.put_ack(fault);
        acked
    }

    /// Takes the oldest report, or else the untold fault notice, as a ticket. One must be there, and no ticket may be
    /// out. What the answer's settling needs is reserved here; if memory runs out, nothing changes.
    pub fn take(&mut self, _alloc: Global) -> Result<Ticket, NoMemory>
        requires { may_make (over_codes self.old.bare.case) self.old.bare.summary Letter.T ≡ true }
        ensures ok { OnOk result (self.new ≡ book_taken self.old) }
        ensures ticket { IfOk result (λ ticket.
            told_ticket self.new.bare.case self.new.bare.summary ≡ Some ticket) }
        ensures unchanged { OnErr result (self.new ≡ self.old) }
    {
        self.bare.range();
        self.journal.reserve_lines()?;
        let ticket = self.bare.take();
        self.journal.put_take();
        Ok(ticket)
    }

    /// Applies the answer to the ticket that is out.
    pub fn settle(&mut self, answer: &Answer)
        requires { told_ticket self.old.bare.case self.old.bare.summary ≡ Some answer.now }
        ensures { self.new ≡ book_answered self.old }
    {
        self.bare.range();
        let taken = taken_at(&self.bare);
        let answered = self.bare.acks();
        let epoch = self.bare.epoch();
        self.bare.settle(answer);
        let begun = line_after(epoch, &self.bare);
        self.journal.put_answer(answer, taken, answered, begun);
    }

    /// The result of the history. No ticket may be out, and nothing may be left to take.
    pub fn finish(self) -> Book
        requires { is_idle self.bare.summary ≡ true }
        ensures { EndsAs self result }
    {
        let held = self.bare.held();
        let first = self.bare.first();
        let journal = self.journal;
        let (case, machine) = self.bare.into_parts();
        Book {
            case,
            word: journal.word.into_sequence(),
            tickets: journal.tickets.into_sequence(),
            epochs: journal.epochs.into_sequence(),
            faults: journal.faults.into_sequence(),
            held,
            first,
            machine,
        }
    }
}

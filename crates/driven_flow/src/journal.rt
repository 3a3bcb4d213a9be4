//! The history of a driven flow, as lists that each letter makes longer.
ghost use Rattle.std.specs.Prelude.{◌≡◌, OnOk, IfOk};
ghost use Rattle.driven_flow.specs.DrivenJournals.{Begins, SameItems, HasAckRoom, HasTakeRoom, HasAnswerRoom};
ghost use Rattle.driven_flow.specs.DrivenJournals.{journal_ack, journal_take, journal_answer, new_notice};

use crate::answer::Answer;
use ccp_base::{Ack, NoMemory, Notice};
use flow_core::{EpochLine, Letter, ReservedList, TicketLine};
use fold_machine::Acked;
use std::alloc::Global;

/// What no later letter depends on.
#[derive(Drop)]
pub(crate) struct Journal {
    pub(crate) acks: ReservedList<Ack>,
    /// The tickets that were answered.
    pub(crate) tickets: ReservedList<TicketLine>,
    pub(crate) answers: ReservedList<Answer>,
    /// The epochs, the present one last.
    pub(crate) epochs: ReservedList<EpochLine>,
    pub(crate) faults: ReservedList<Notice>,
    pub(crate) word: ReservedList<Letter>,
}

// A function of its own: the proof of `hear` cites its clause, in place of a case for each answer.
/// The notice of an acknowledgement's fault, by the machine's answer and the untold notice after it; None if it had no
/// fault.
pub(crate) fn new_notice(acked: Acked, untold: Option<Notice>) -> Option<Notice>
    ensures { result ≡ new_notice acked untold }
{
    match acked {
        Acked::Faulted(_, _) => untold,
        Acked::Quiet | Acked::Reported | Acked::Held | Acked::Stopped => None,
    }
}

impl Journal {
    /// The journal of a flow without a letter, whose first epoch this is.
    pub(crate) fn open(alloc: Global, epoch: EpochLine) -> Result<Journal, NoMemory>
        ensures { IfOk result (Begins epoch) }
    {
        let mut journal = Journal {
            acks: ReservedList::with_room(alloc, 0)?,
            tickets: ReservedList::with_room(alloc, 0)?,
            answers: ReservedList::with_room(alloc, 0)?,
            epochs: ReservedList::with_room(alloc, 1)?,
            faults: ReservedList::with_room(alloc, 0)?,
            word: ReservedList::with_room(alloc, 0)?,
        };
        journal.epochs.push(epoch);
        Ok(journal)
    }

    /// Reserves room for an acknowledgement.
    pub(crate) fn reserve_ack(&mut self) -> Result<(), NoMemory>
        ensures items { SameItems self.old self.new }
        ensures room { OnOk result (HasAckRoom self.new) }
    {
        self.acks.reserve(1)?;
        self.faults.reserve(1)?;
        self.word.reserve(1)?;
        Ok(())
    }

    /// Records an acknowledgement, and its fault, if it had one.
    pub(crate) fn put_ack(&mut self, ack: &Ack, fault: Option<Notice>)
        requires { HasAckRoom self.old }
        ensures { self.new ≡ journal_ack ack.entry.now fault self.old }
    {
        if let Some(notice) = fault {
            self.faults.push(notice);
        }
        self.acks.push(*ack);
        self.word.push(Letter::A);
    }

    /// Reserves room for a taking.
    pub(crate) fn reserve_take(&mut self) -> Result<(), NoMemory>
        ensures items { SameItems self.old self.new }
        ensures room { OnOk result (HasTakeRoom self.new) }
    {
        self.word.reserve(1)?;
        Ok(())
    }

    /// Records that a ticket was taken.
    pub(crate) fn put_take(&mut self)
        requires { HasTakeRoom self.old }
        ensures { self.new ≡ journal_take self.old }
    {
        self.word.push(Letter::T);
    }

    /// Reserves room for an answer.
    pub(crate) fn reserve_answer(&mut self) -> Result<(), NoMemory>
        ensures items { SameItems self.old self.new }
        ensures room { OnOk result (HasAnswerRoom self.new) }
    {
        self.tickets.reserve(1)?;
        self.answers.reserve(1)?;
        self.epochs.reserve(1)?;
        self.word.reserve(1)?;
        Ok(())
    }

    /// Records an answer with its ticket, and the epoch that it began, if it began one.
    pub(crate) fn put_answer(
        &mut self,
        answer: &Answer,
        ticket: &TicketLine,
        epoch: Option<EpochLine>,
    )
        requires { HasAnswerRoom self.old }
        ensures { self.new ≡ journal_answer answer.now ticket.now epoch self.old }
    {
        self.tickets.push(TicketLine {
            told: ticket.told,
            taken: ticket.taken,
            answered: ticket.answered,
            reply: ticket.reply,
        });
        self.answers.push(*answer);
        if let Some(line) = epoch {
            self.epochs.push(line);
        }
        self.word.push(Letter::C);
    }
}

//! What a flow's book has of its history, as lists that each letter makes longer.
ghost use Rattle.std.specs.Prelude.{◌≡◌, ◌<◌, length, IfOk, OnOk};
ghost use Rattle.flow_core.specs.Journals.{OpensJournal, HasSpareRoom, HaveLineRoom, journal_ack, journal_take};
ghost use Rattle.flow_core.specs.Journals.{journal_answer, journal_line};

use crate::book::{EpochLine, TicketLine};
use crate::letter::Letter;
use agent_core::Answer;
use ccp_base::{NoMemory, Notice};
use flow_lists::ReservedList;
use std::alloc::Global;

/// What no later letter depends on, but for the acknowledgements.
#[derive(Drop)]
pub(crate) struct Journal {
    /// The tickets that were answered.
    pub(crate) tickets: ReservedList<TicketLine>,
    /// The epochs, the present one last.
    pub(crate) epochs: ReservedList<EpochLine>,
    pub(crate) faults: ReservedList<Notice>,
    pub(crate) word: ReservedList<Letter>,
}

impl Journal {
    /// The journal of a flow without a letter, whose first epoch this is. Room for a fault and three letters for every
    /// acknowledgement is reserved here.
    pub(crate) fn open(alloc: Global, acks: u32, epoch: EpochLine) -> Result<Journal, NoMemory>
        ensures { IfOk result (OpensJournal acks epoch) }
    {
        let acks = acks as usize;
        let mut journal = Journal {
            tickets: ReservedList::with_room(alloc, 0)?,
            epochs: ReservedList::with_room(alloc, 1)?,
            faults: ReservedList::with_room(alloc, acks)?,
            word: ReservedList::with_room(alloc, 3 * acks)?,
        };
        journal.epochs.push(epoch);
        Ok(journal)
    }

    /// Reserves room for the lines of the next ticket's answer.
    pub(crate) fn reserve_lines(&mut self) -> Result<(), NoMemory>
        ensures frame { self.new ≡ record self.old { tickets = self.new.tickets; epochs = self.new.epochs } }
        ensures tickets { self.new.tickets.items ≡ self.old.tickets.items }
        ensures epochs { self.new.epochs.items ≡ self.old.epochs.items }
        ensures room { OnOk result (HaveLineRoom self.new.tickets self.new.epochs) }
    {
        self.tickets.reserve(1)?;
        self.epochs.reserve(1)?;
        Ok(())
    }

    /// Records that an acknowledgement came, and its fault, if it had one.
    pub(crate) fn put_ack(&mut self, fault: Option<Notice>)
        requires faults { HasSpareRoom self.old.faults }
        requires word { HasSpareRoom self.old.word }
        ensures { self.new ≡ journal_ack fault self.old }
    {
        if let Some(notice) = fault {
            self.faults.push(notice);
        }
        self.word.push(Letter::A);
    }

    /// Records that a ticket was taken.
    pub(crate) fn put_take(&mut self)
        requires { HasSpareRoom self.old.word }
        ensures { self.new ≡ journal_take self.old }
    {
        self.word.push(Letter::T);
    }

    /// Records an answer, whose ticket was taken at `taken` acknowledgements and which is applied at `answered`, and
    /// the epoch that it began, if it began one.
    pub(crate) fn put_answer(
        &mut self,
        answer: &Answer,
        taken: u32,
        answered: u32,
        epoch: Option<EpochLine>,
    )
        requires lines { HaveLineRoom self.old.tickets self.old.epochs }
        requires word { HasSpareRoom self.old.word }
        ensures { self.new ≡ journal_answer (journal_line answer.now taken answered) epoch self.old }
    {
        self.tickets.push(TicketLine {
            told: answer.ticket().told,
            taken,
            answered,
            reply: answer.reply(),
        });
        if let Some(line) = epoch {
            self.epochs.push(line);
        }
        self.word.push(Letter::C);
    }
}

//! The book of a flow: its word, tickets, epochs, faults and counts, alone or with its acknowledgements.
ghost use Rattle.std.specs.Prelude.{◌≡◌};
ghost use Rattle.flow_core.specs.Books.{line_of};

use crate::case::Case;
use crate::letter::Words;
use ccp_base::{Acks, Notice, Reply, RunningEpoch, Sequence, Told};
use fold_machine::Machine;

/// A ticket that was answered: what it told, at how many acknowledgements it was taken and at how many its answer was
/// applied, and the agent's reply.
#[derive(Clone, Copy, PartialEq, Eq)]
pub struct TicketLine {
    pub told: Told,
    pub taken: u32,
    pub answered: u32,
    pub reply: Reply,
}

/// An epoch: its program, at how many acknowledgements it started, and its first window, in bytes.
#[derive(Clone, Copy, PartialEq, Eq, Debug)]
pub struct EpochLine {
    pub program: u32,
    pub at: u32,
    pub cwnd: u64,
}

impl EpochLine {
    /// The line of the epoch that runs, which begins after `acks` acknowledgements with this window, in bytes.
    pub fn of(epoch: &RunningEpoch, acks: u32, cwnd: u64) -> EpochLine
        ensures { result ≡ line_of epoch.now acks cwnd }
    {
        EpochLine {
            program: epoch.program,
            at: acks,
            cwnd,
        }
    }
}

/// The result of a flow's history.
#[derive(Drop)]
pub struct Book {
    pub case: Case,
    pub word: Words,
    /// The tickets in order.
    pub tickets: Sequence<TicketLine>,
    /// The epochs in order, the opening one first.
    pub epochs: Sequence<EpochLine>,
    /// The faults in order.
    pub faults: Sequence<Notice>,
    /// How many reports were asked for while there was no room.
    pub held: u32,
    /// The number of acknowledgements at which the unreported span begins.
    pub first: u64,
    /// The registers of the last epoch.
    pub machine: Machine,
}

/// A book with the acknowledgements that its flow was given.
#[derive(Drop)]
pub struct Given {
    pub book: Book,
    pub acks: Acks,
}

//! The letters of a flow's history: an acknowledgement, a taking, or an answer that is applied.
use ccp_base::Sequence;

/// One step of a flow's history.
#[derive(Clone, Copy)]
pub enum Letter {
    /// An acknowledgement.
    A,
    /// A report or a fault notice is taken as a ticket.
    T,
    /// The answer to the ticket that is out is applied.
    C,
}

/// A flow's history, its letters in order.
pub type Words = Sequence<Letter>;

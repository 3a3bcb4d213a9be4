//! The letters of a ticket, each with the number of acknowledgements before it.
use ccp_base::Sequence;
use flow_core::Letter;

/// A letter of a ticket, and the number of acknowledgements before it.
#[derive(Clone, Copy)]
pub struct Mark {
    pub at: u64,
    pub letter: Letter,
}

/// Letters of tickets in order.
pub type Marks = Sequence<Mark>;

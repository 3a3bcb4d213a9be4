//! What an agent outside answers to a ticket.
use ccp_base::Fields;

/// An answer: the program that it changes to, if it is a change, and the values that it writes, in order.
#[derive(Clone, Copy)]
pub struct Answer {
    pub program: Option<u32>,
    pub values: Fields,
}

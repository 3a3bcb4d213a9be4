//! What is known of a program's start, its acknowledgements and its updates.
use ccp_base::{FieldReg, Sequence};
use value_ranges::Range;

/// A range for what a start or an update writes.
#[derive(Clone, Copy)]
pub struct Item {
    pub register: FieldReg,
    pub range: Range,
}

/// A kind of acknowledgements.
#[derive(Clone, Copy)]
pub struct Kind {
    /// The range of each primitive, by its number.
    pub primitives: [Range; 15],
}

/// Two primitives, by their numbers, of which the first is at most the second.
#[derive(Clone, Copy)]
pub struct Order {
    pub low: u32,
    pub high: u32,
}

/// What is known of a program's start, its acknowledgements and its updates.
#[derive(Drop)]
pub struct Premises {
    /// The most acknowledgements.
    pub acks: u32,
    /// Whether no time is below that of an acknowledgement before it.
    pub is_rising: bool,
    /// Whether there is always room for a report.
    pub has_room: bool,
    /// The kinds of acknowledgements: each is of one of them.
    pub kinds: Sequence<Kind>,
    /// Orders of the primitives of each acknowledgement.
    pub orders: Sequence<Order>,
    /// The ranges of what a start can write; what isn't listed has its declared value, or any window and rate.
    pub starts: Sequence<Item>,
    /// The ranges of what an update can write.
    pub updates: Sequence<Item>,
}

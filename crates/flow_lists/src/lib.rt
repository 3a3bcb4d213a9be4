//! The lists of a flow: reports that wait in slots of a pool, and lists with reserved room.
#![tactic(auto)]

mod content;
mod outbox;
mod report_words;
mod reserved_list;

pub use outbox::Outbox;
pub use report_words::{HEAD_WORDS, REPORT_WORDS, report_head};
pub use reserved_list::ReservedList;

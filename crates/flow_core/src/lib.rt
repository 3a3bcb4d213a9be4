//! One flow: its programs' machine, its outbox, its agent and its link, and its history as a word of letters.
#![tactic(auto)]

mod bare;
mod book;
mod book_flow;
mod case;
mod cell;
mod cores;
mod journal;
mod last_report;
mod laws;
mod letter;
mod machine_calls;
mod reads_rates;
mod running;

pub use bare::Bare;
pub use book::{Book, EpochLine, Given, TicketLine};
pub use book_flow::BookFlow;
pub use case::{Case, Coded};
pub use cell::Cell;
pub use cores::{Core, Ended, Stale, TakeFault};
pub use flow_lists::{Outbox, REPORT_WORDS, ReservedList};
pub use letter::{Letter, Words};
pub use running::{Issued, Running};

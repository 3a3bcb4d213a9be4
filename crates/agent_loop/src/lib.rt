//! A live run: datapath workers and agent workers over flows behind locks, and a book of each flow.
#![tactic(auto)]

mod agent;
mod attending;
mod books;
mod crew;
mod nudge_sender;
mod nudged_desk;
mod run;
mod workers;

use ccp_base::Sequence;
use flow_core::Book;
pub use run::live;

/// Books in order.
pub type Books = Sequence<Book>;

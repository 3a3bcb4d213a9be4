//! A flow whose programs are installed while it runs: its library of entries, its link and its machine, its history as a
//! word of letters, and its book.
#![tactic(auto)]

mod account;
mod advance;
mod book;
mod cell;
mod entry;
mod letter;
mod library;
mod opening;
mod state;
mod turn;

pub use book::{OpenBook, OpenBooks};
pub use cell::{Late, Nothing, OpenCell};
pub use entry::{Entries, Entry, entry_of};
pub use letter::{OpenLetter, OpenWord};
pub use library::built_at;
pub use turn::make_letter;

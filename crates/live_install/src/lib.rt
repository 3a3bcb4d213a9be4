//! Rollouts: programs are compiled and installed while datapaths run. The books of the flows, and their text.
#![tactic(auto)]

mod books;
mod crew;
mod datapath_threads;
mod entry_lines;
mod install_desk;
mod installer;
mod installer_threads;
mod laws;
mod rollout_flow;
mod run;
mod text;
mod workers;

pub use laws::words_law;
pub use open_flow::{
    Entries, Entry, Late, Nothing, OpenBook, OpenBooks, OpenCell, OpenLetter, OpenWord,
};
pub use run::rollout;
pub use text::rollout_text;

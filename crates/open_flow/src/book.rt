//! The book of a rollout's flow: its word, entries, epochs, reports, faults and counts.
use crate::entry::Entries;
use crate::letter::OpenWord;
use ccp_base::{Notice, Reports, Sequence};
use flow_core::EpochLine;
use fold_machine::Machine;
use scene_members::OpenCase;

/// The history of a flow of a rollout, and the state after it.
#[derive(Drop)]
pub struct OpenBook {
    pub case: OpenCase,
    pub word: OpenWord,
    /// The entries, in the order of the steps.
    pub entries: Entries,
    /// For each entry, how many acknowledgements were in when it was installed.
    pub installed: Sequence<u32>,
    /// The epochs in order, each with its step as program.
    pub epochs: Sequence<EpochLine>,
    /// The reports in order, each with its step as program.
    pub reports: Reports,
    /// The faults in order, each with its step as program.
    pub faults: Sequence<Notice>,
    /// How many acknowledgements are in.
    pub acks: u32,
    /// The number of acknowledgements at which the unreported span begins, 0 before the first change.
    pub first: u64,
    /// The registers of the last epoch.
    pub machine: Machine,
}

/// Books in order.
pub type OpenBooks = Sequence<OpenBook>;

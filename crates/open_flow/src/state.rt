//! The state of a rollout's flow: its link, its machine, its library and its history so far.
use crate::account::Account;
use crate::entry::Entry;
use crate::letter::OpenLetter;
use ccp_base::RunningEpoch;
use flow_core::{EpochLine, ReservedList};
use fold_machine::Machine;
use link_model::Link;
use scene_members::OpenCase;

/// All that a flow of a rollout keeps.
#[derive(Drop)]
pub(crate) struct State {
    pub(crate) case: OpenCase,
    pub(crate) link: Link,
    /// It runs the program that was changed to last.
    pub(crate) machine: Machine,
    /// The epoch that runs, with its step as program; None before the first change.
    pub(crate) running: Option<RunningEpoch>,
    /// How many acknowledgements are in.
    pub(crate) acks: u32,
    /// The time of the last acknowledgement, in microseconds; 0 if there is none.
    pub(crate) time: u64,
    pub(crate) account: Account,
    pub(crate) entries: ReservedList<Entry>,
    /// For each entry, how many acknowledgements were in when it was installed.
    pub(crate) installed: ReservedList<u32>,
    pub(crate) epochs: ReservedList<EpochLine>,
    pub(crate) word: ReservedList<OpenLetter>,
}

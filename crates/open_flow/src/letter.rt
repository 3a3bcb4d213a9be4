//! The letters of a rollout's history: an acknowledgement, an installed entry, or a change.
use ccp_base::Sequence;

/// One step of the history of a flow of a rollout.
#[derive(Clone, Copy)]
pub enum OpenLetter {
    /// An acknowledgement.
    A,
    /// An entry is installed.
    I,
    /// The flow is changed to an entry's program.
    G,
}

/// The history of a flow of a rollout, its letters in order.
pub type OpenWord = Sequence<OpenLetter>;

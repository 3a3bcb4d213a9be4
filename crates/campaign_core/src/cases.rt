//! The lists that a campaign is given and makes, beside that of rows.
use ccp_base::{Acks, Sequence};
use flow_core::Case;

/// The cases of a campaign in order.
pub type Cases = Sequence<Case>;

/// The acknowledgements of each case of a campaign, in the order of the cases.
pub type CaseAcks = Sequence<Acks>;

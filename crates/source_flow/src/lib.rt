//! One flow by the meaning of its programs' sources: its account after a word of letters.
#![tactic(auto)]

pub mod calls;
mod flow_account;
mod hearing;
mod opening;
mod settling;
mod source_case;
mod state;
mod taking;
mod walk;

pub use flow_account::{FlowAccount, SourceFault};

//! The scenario that is run, and for flows over one link also the link.
#![tactic(auto)]

mod scene;

pub use scene::{Scenario, SharedScene};

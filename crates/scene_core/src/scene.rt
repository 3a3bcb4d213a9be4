//! The scenario that is run: its programs and cases, and for flows over one link also the link.
use ccp_base::{Names, Sequence};
use flow_core::Case;
use reg_compiler::Builts;
use shared_link::SharedCase;

/// What is run: all programs with their numbers, and the cases with their names, in order. Case i is flow i.
#[derive(Drop)]
pub struct Scenario {
    pub programs: Builts,
    pub names: Names,
    pub cases: Sequence<Case>,
}

/// What a run of flows over one link needs: the scenario, the link with one flow for each case in order, and the most
/// rounds.
#[derive(Drop)]
pub struct SharedScene {
    pub scene: Scenario,
    pub link: SharedCase,
    /// 1 to 10,000.
    pub rounds: u32,
}

//! The numbers of workers of a run.

use ccp_base::Workers;

/// How many workers a run has of each kind.
#[derive(Clone, Copy)]
pub struct WorkerCounts {
    pub datapaths: Workers,
    pub agents: Workers,
}

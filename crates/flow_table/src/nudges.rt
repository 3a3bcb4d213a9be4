//! How datapath workers let agent workers know that something waits.

use ccp_base::NoMemory;
use std::sync::Wait;

/// Where datapath workers send the numbers of flows of which a report or a fault waits.
pub trait Nudges: Drop + Sized {
    /// Another sender to the same place.
    fn share(&self) -> Result<Self, NoMemory>;

    /// Sends a flow's number. A nudge may get lost: what it points to is left to the caller.
    fn nudge<R: Wait>(&self, rt: &R, flow: u32);
}

/// No agent waits for flows.
#[derive(Drop)]
pub struct NoNudges;

impl Nudges for NoNudges {
    fn share(&self) -> Result<NoNudges, NoMemory> {
        Ok(NoNudges)
    }

    fn nudge<R: Wait>(&self, _rt: &R, _flow: u32) {}
}

//! Nudges that go through a channel.

use ccp_base::NoMemory;
use crossbeam_channel::Sender;
use flow_table::Nudges;
use std::alloc::Global;
use std::sync::Wait;

/// The way from datapath workers to agent workers.
#[derive(Drop)]
pub(crate) struct NudgeSender {
    pub(crate) sender: Sender<u32, Global>,
}

impl Nudges for NudgeSender {
    fn share(&self) -> Result<NudgeSender, NoMemory> {
        let sender = self.sender.clone()?;
        Ok(NudgeSender { sender })
    }

    fn nudge<R: Wait>(&self, rt: &R, flow: u32) {
        // A nudge may get lost: what it points to is taken at the end.
        let _sent = self.sender.send(rt, flow);
    }
}

//! A flow that lists its acknowledgements.
ghost use Rattle.std.specs.Prelude.{◌≡◌, true, refl, IfOk};
ghost use Rattle.campaign_gate.specs.ListedFlows.{listed_flow_at};

use campaign_core::{BareFlow, GivenFlow};
use ccp_base::{Ack, Acks, NoMemory};
use flow_core::{Bare, Case, ReservedList};
use std::alloc::Global;
use std::marker::Model;

/// A flow that keeps of its history the acknowledgements alone.
#[derive(Drop)]
pub(crate) struct ListedFlow {
    flow: BareFlow,
    acks: ReservedList<Ack>,
}

/// The list has room for all acknowledgements of the case.
impl Model for ListedFlow {
    ghost use Rattle.std.specs.Prelude.{◌≤◌};
    ghost use Rattle.campaign_gate.specs.ListedFlows.{ListedState};

    ghost Value = { ListedState };

    ghost view = { λ l. record { flow = l.flow; acks = l.acks.items } };

    ghost invariant = { λ l. l.flow.bare.case.acks ≤ l.acks.room };
}

impl ListedFlow {
    /// The acknowledgements so far.
    pub(crate) fn into_acks(self) -> Acks
        ensures { result ≡ self.acks }
    {
        let ListedFlow { flow, acks } = self;
        drop(flow);
        acks.into_sequence()
    }
}

/// It takes no memory after its opening.
impl GivenFlow for ListedFlow {
    ghost at = { listed_flow_at };

    ghost bare_of = { λ listed. listed.flow.bare };

    ghost gets = { λ listed. true };

    ghost bare_law = { λ core. refl };

    fn open(alloc: Global, case: Case) -> Result<ListedFlow, NoMemory> {
        let flow = BareFlow::open(alloc, case)?;
        match ReservedList::with_room(alloc, flow.bare.case().acks as usize) {
            Ok(acks) => Ok(ListedFlow { flow, acks }),
            Err(error) => {
                drop(flow);
                Err(error)
            }
        }
    }

    fn bare(&self) -> &Bare {
        self.flow.bare()
    }

    /// The list has the whole acknowledgements.
    fn gets_rates(&self) -> bool {
        true
    }

    #[inline(always)]
    fn hear(&mut self, ack: &Ack) {
        self.flow.hear(ack);
        self.acks.push(*ack);
    }

    fn take(&mut self, _alloc: Global) -> Result<(), NoMemory> {
        self.flow.bare.issue();
        Ok(())
    }

    fn settle(&mut self) {
        self.flow.settle();
    }
}

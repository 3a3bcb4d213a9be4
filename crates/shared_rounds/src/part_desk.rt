//! The desk for a flow's part of a round.
ghost use Rattle.std.specs.Prelude.{◌≡◌, ◌+◌, IfOk, IfSome};
ghost use Rattle.std.proofs.Props.{props};

use crate::course::Course;
use crate::flows::do_part;
use crate::known_flow::KnownFlow;
use crate::round_acks::RoundAcks;
use crate::round_flow::{LockedFlow, RoundFlow};
use ccp_base::{Gate, NoMemory, Point};
use std::alloc::Global;
use std::sync::Wait;
use worker_desk::GatedDesk;

/// What a worker does one part on: what the flow is given, the flows, the gate, and, once the part is done, what is
/// known of the flow.
#[derive(Drop)]
pub(crate) struct PartDesk<'a, C: Course, F: RoundFlow<C>, R: Wait, G: Gate> {
    pub(crate) rt: &'a R,
    pub(crate) alloc: Global,
    pub(crate) flows: &'a [LockedFlow<F>],
    pub(crate) acks: &'a RoundAcks<C>,
    pub(crate) gate: &'a G,
    /// None until the part is done. What it answered is out of memory only if the flow ran out of memory.
    pub(crate) known: Option<Result<KnownFlow<C>, NoMemory>>,
    ghost number: { IfSome known (λ known. IfOk known (λ flow. flow.number ≡ acks.now.number)) } by { Prim.hlevel props },
    ghost round: { IfSome known (λ known. IfOk known (λ flow. flow.round ≡ acks.now.round + 1)) } by { Prim.hlevel props },
}

/// The case is the part, and its number is the flow's. A part for which memory ran out is done as well.
impl<'a, C: Course, F: RoundFlow<C>, R: Wait, G: Gate> GatedDesk for PartDesk<'a, C, F, R, G> {
    ghost use Rattle.std.specs.Prelude.{◌≡◌, None, [], ◌∷◌, map, option_map, option_to_list};

    type Made = (u32, u32);

    ghost log = { λ d. None };

    // the flow's number and the round
    ghost results = { λ d. (d.acks.now.number, d.acks.now.round) ∷ [] };

    ghost made = { λ d. option_to_list (option_map (λ known. (d.acks.now.number, d.acks.now.round)) d.known) };

    // the part is this flow's, and isn't done yet
    ghost CanRun = { λ results made case. (map (λ part. part.0) results ≡ case ∷ []) × (made ≡ []) };

    ghost results_of = { λ results case. results };

    fn pass(&mut self, worker: u32, point: Point, flow: u32) {
        self.gate.pass(worker, point, flow);
    }

    fn run(&mut self, _flow: u32) -> Result<(), NoMemory> {
        self.known = Some(do_part(self.rt, self.alloc, self.flows, self.acks));
        Ok(())
    }
}

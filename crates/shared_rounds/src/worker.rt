//! The work of a worker's thread.
use crate::course::Course;
use crate::dealt::Dealt;
use crate::line::{Receiver, Sender};
use crate::round_flow::{LockedFlow, RoundFlow};
use ccp_base::Gate;
use std::alloc::Global;
use std::sync::Wait;

/// Does the orders that come, and sends each back after its parts, until no more can come.
pub(crate) fn serve<'e, C: Course, F: RoundFlow<C>, R: Wait, G: Gate>(
    rt: &R,
    alloc: Global,
    flows: &[LockedFlow<F>],
    orders: Receiver<'e, Dealt<C>>,
    done: Sender<'e, Dealt<C>>,
    gate: &G,
) {
    let mut orders = orders;
    let mut done = done;
    for _ in rt.forever() {
        if !serve_next(rt, alloc, flows, &mut orders, &mut done, gate) {
            return;
        }
    }
}

/// Does the next order and sends it back after its parts, unless no more can come. Says whether one came.
fn serve_next<'e, C: Course, F: RoundFlow<C>, R: Wait, G: Gate>(
    rt: &R,
    alloc: Global,
    flows: &[LockedFlow<F>],
    orders: &mut Receiver<'e, Dealt<C>>,
    done: &mut Sender<'e, Dealt<C>>,
    gate: &G,
) -> bool {
    let Some(mut dealt) = orders.receive(rt) else {
        return false;
    };
    dealt.order.do_parts(rt, alloc, flows, gate);
    let _unsent = done.send(dealt);
    true
}

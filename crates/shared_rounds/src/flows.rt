//! The flows of a run side by side, each behind its lock, as the rounds see them.
ghost use Rattle.std.specs.Prelude.{◌≡◌, ◌+◌, ◌≤◌, length, IfOk, OnOk};
ghost use Rattle.ccp_base.specs.Limits.{most_flows};
ghost use Rattle.shared_rounds.specs.Rounds.{none_left};
ghost use Rattle.shared_rounds.specs.KnownFlows.{AreKnown};

use crate::course::Course;
use crate::known_flow::{KnownFlow, KnownFlows};
use crate::round_acks::RoundAcks;
use crate::round_flow::{LockedFlow, RoundFlow};
use ccp_base::NoMemory;
use shared_link::Ask;
use std::alloc::Global;
use std::sync::Wait;

/// What is known of the flows before the first round, in order.
pub(crate) fn know_flows<C: Course, F: RoundFlow<C>, R: Wait>(
    rt: &R,
    alloc: Global,
    flows: &[LockedFlow<F>],
) -> Result<KnownFlows<C>, NoMemory>
    requires few { length flows.now ≤ most_flows }
    ensures length { IfOk result (λ known. length known ≡ length flows.now) }
    ensures known { IfOk result (λ known. AreKnown known 0) }
{
    let mut known = KnownFlows::new(alloc);
    let mut number = 0;
    let mut rest = flows;
    while let Some((flow, later)) = rest.split_first() {
        known.push(know_locked(rt, flow, number)?)?;
        number += 1;
        rest = later;
    }
    Ok(known)
}

// A function of its own: the loop of its caller has no lock to give back.
/// What is known of a flow behind its lock before the first round.
fn know_locked<C: Course, F: RoundFlow<C>, R: Wait>(
    rt: &R,
    flow: &LockedFlow<F>,
    number: u32,
) -> Result<KnownFlow<C>, NoMemory>
    ensures number { IfOk result (λ known. known.number ≡ number) }
    ensures round { IfOk result (λ known. known.round ≡ 0) }
{
    F::know(&flow.lock(rt), rt, number)
}

/// Puts what the flows ask the link for after this many rounds into a list, in order.
pub(crate) fn collect_asks<C: Course>(
    known: &KnownFlows<C>,
    round: u32,
    asks: &mut Vec<Ask>,
) -> Result<(), NoMemory>
    requires known { AreKnown known.now round }
    requires flows { length known.now ≡ length (C.asks round) }
    requires few { length known.now ≤ most_flows }
    ensures { OnOk result (asks.new.items ≡ C.asks round) }
{
    asks.clear();
    let places = known.len();
    for number in 0..places {
        asks.push(known.at(number).ask())?;
    }
    Ok(())
}

/// Whether no flow asks for an acknowledgement.
pub(crate) fn none_left(asks: &[Ask]) -> bool
    ensures { result ≡ none_left asks.now }
{
    let mut rest = asks;
    while let Some((ask, later)) = rest.split_first() {
        if ask.left != 0 {
            return false;
        }
        rest = later;
    }
    true
}

/// A flow's part of a round, and what is known of the flow then. The call waits forever if the flow isn't in its lock,
/// through the rounds before: a lock's type can't say that the lock kept it.
pub(crate) fn do_part<C: Course, F: RoundFlow<C>, R: Wait>(
    rt: &R,
    alloc: Global,
    flows: &[LockedFlow<F>],
    acks: &RoundAcks<C>,
) -> Result<KnownFlow<C>, NoMemory>
    ensures number { IfOk result (λ known. known.number ≡ acks.now.number) }
    ensures round { IfOk result (λ known. known.round ≡ acks.now.round + 1) }
{
    if let Some(flow) = flows.get(acks.number as usize) {
        return F::hear_part(&mut flow.lock(rt), rt, alloc, acks);
    }
    for _ in rt.forever() {}
    unreachable!()
}

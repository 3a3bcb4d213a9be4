//! The rounds of a shared run: flows ask, the link answers, and workers do the flows' parts.
ghost use Rattle.std.specs.Prelude.{◌≡◌, ◌+◌, ◌%◌, ◌<◌, ◌≤◌, [], length, slice_set, IfOk, OnOk};
ghost use Rattle.ccp_base.specs.Limits.{most_flows, most_rounds, most_workers};
ghost use Rattle.shared_rounds.specs.Rounds.{acks_in_round, StandsAfter, HasEnded};
ghost use Rattle.shared_rounds.specs.Orders.{AreDealt, IsDealtBefore, DealsOne};
ghost use Rattle.shared_rounds.specs.KnownFlows.{IsKnown, AreKnown, AreRested};
ghost use Rattle.shared_rounds.specs.RunStarts.{MayBegin, IsOver};

use crate::course::Course;
use crate::desk::Desk;
use crate::flows::{collect_asks, know_flows, none_left};
use crate::known_flow::KnownFlows;
use crate::line::Bell;
use crate::order::{Order, begin_orders, open_orders};
use crate::round_acks::RoundAcks;
use crate::round_flow::{LockedFlow, RoundFlow};
use crate::worker_handle::{WorkerHandle, do_orders, start_workers};
use ccp_base::{Gate, NoMemory};
use shared_link::{SharedLink, UnratedAcks};
use std::alloc::Global;
use std::sync::Wait;
use std::thread;
use std::thread::{Scope, Threads};

/// What a run has after its last round.
#[derive(Drop)]
pub struct RunEnd<C: Course> {
    /// The link as the rounds leave it.
    pub link: SharedLink,
    /// How many rounds there were.
    pub rounds: u32,
    /// What is known of the flows after them.
    pub known: KnownFlows<C>,
}

/// Puts the parts of a round into the orders of their workers, and takes them out of `lists`, which keeps its memory: a
/// flow that has acknowledgements is a part of worker `f mod workers`. A flow without acknowledgements stays as it is,
/// and the link gets its list back.
fn deal<C: Course>(
    desk: &mut Desk<C>,
    orders: &mut [Order<C>],
    lists: &mut Vec<UnratedAcks>,
    round: u32,
    workers: u32,
) -> Result<(), NoMemory>
    requires workers { 1 ≤ workers }
    requires lists { lists.old.items ≡ acks_in_round C.link C.asks round }
    requires few { length lists.old.items ≤ most_flows }
    requires round { round < most_rounds }
    requires none { AreDealt workers round [] orders.old }
    requires known { AreKnown desk.old.known round }
    requires places { length lists.old.items ≤ length desk.old.known }
    ensures link { desk.new.link ≡ desk.old.link }
    ensures count { OnOk result (length desk.new.known ≡ length desk.old.known) }
    ensures rested { OnOk result (AreRested round lists.old.items desk.new.known) }
    ensures orders { OnOk result (AreDealt workers round lists.old.items orders.new) }
{
    let mut number = 0;
    for list in lists.drain(..) {
        let acks = RoundAcks::new(list, number, round);
        deal_part(desk, orders, acks, workers)?;
        number += 1;
    }
    Ok(())
}

/// Puts a flow's part into the order of its worker, if the flow has acknowledgements.
fn deal_part<C: Course>(
    desk: &mut Desk<C>,
    orders: &mut [Order<C>],
    acks: RoundAcks<C>,
    workers: u32,
) -> Result<(), NoMemory>
    requires workers { 1 ≤ workers }
    requires before { IsDealtBefore workers acks.round acks.number orders.old }
    requires known { IsKnown desk.old.known acks.number acks.round }
    ensures link { desk.new.link ≡ desk.old.link }
    ensures rested { length acks.acks ≡ 0
        → desk.new.known ≡ slice_set desk.old.known acks.number (acks.number, acks.round + 1) }
    ensures same { 0 < length acks.acks → desk.new.known ≡ desk.old.known }
    ensures orders { OnOk result (DealsOne workers acks.round (acks.number, acks.acks) orders.old orders.new) }
{
    if acks.acks.as_slice().is_empty() {
        desk.known.rest(&acks);
        desk.give_back(acks);
        return Ok(());
    }
    let mut acks = acks;
    let number = acks.number;
    let known = desk.known.at(number);
    acks.rest_since(known);
    let worker = worker_of(number, workers);
    orders[worker as usize].push(acks)
}

/// The worker that does a flow's parts. It is separate since the proof of `deal_part` cites its clause.
fn worker_of(flow: u32, workers: u32) -> u32
    requires { 1 ≤ workers }
    ensures { result ≡ flow % workers }
{
    flow % workers
}

/// One more round, in which the flows ask for what the desk has: the link answers, and each flow does its part on its
/// worker. Then the desk has what they ask for next. `lists` is for the link's answers, and only keeps its memory from
/// round to round.
fn run_round<'e, C: Course, F: RoundFlow<C>, R: Wait, G: Gate>(
    rt: &R,
    alloc: Global,
    flows: &[LockedFlow<F>],
    desk: &mut Desk<C>,
    lists: &mut Vec<UnratedAcks>,
    orders: &mut [Order<C>],
    handles: &mut [WorkerHandle<'e, C>],
    done: u32,
    gate: &G,
) -> Result<(), NoMemory>
    requires workers { 1 ≤ length handles.old }
    requires few_workers { length handles.old ≤ most_workers }
    requires orders { length orders.old ≡ length handles.old }
    requires count { length desk.old.known ≡ C.flows }
    requires known { AreKnown desk.old.known done }
    requires few { C.flows ≤ most_flows }
    requires links { length C.link.flows ≡ C.flows }
    requires stands { StandsAfter C.link C.asks done desk.old.link }
    requires asks { desk.old.asks.items ≡ C.asks done }
    requires rounds { done < most_rounds }
    ensures count { OnOk result (length desk.new.known ≡ C.flows) }
    ensures known { OnOk result (AreKnown desk.new.known (done + 1)) }
    ensures asks { OnOk result (desk.new.asks.items ≡ C.asks (done + 1)) }
    ensures stands { OnOk result (StandsAfter C.link C.asks (done + 1) desk.new.link) }
{
    desk.link.round_into(alloc, desk.asks.as_slice(), lists)?;
    let workers = handles.len() as u32;
    begin_orders(orders, done);
    deal(desk, orders, lists, done, workers)?;
    do_orders(rt, alloc, flows, desk, orders, handles, done, gate)?;
    collect_asks(&desk.known, done + 1, &mut desk.asks)
}

/// Rounds until no flow asks for more, at most `most`. Answers how many there were.
fn run_rounds<'e, C: Course, F: RoundFlow<C>, R: Wait, G: Gate>(
    rt: &R,
    alloc: Global,
    flows: &[LockedFlow<F>],
    desk: &mut Desk<C>,
    handles: &mut [WorkerHandle<'e, C>],
    most: u32,
    gate: &G,
) -> Result<u32, NoMemory>
    requires workers { 1 ≤ length handles.old }
    requires few_workers { length handles.old ≤ most_workers }
    requires count { length desk.old.known ≡ C.flows }
    requires known { AreKnown desk.old.known 0 }
    requires few { C.flows ≤ most_flows }
    requires links { length C.link.flows ≡ C.flows }
    requires stands { StandsAfter C.link C.asks 0 desk.old.link }
    requires rounds { most ≤ most_rounds }
    ensures end { IfOk result (λ done. HasEnded C.link C.asks most done desk.new.link) }
    ensures count { OnOk result (length desk.new.known ≡ C.flows) }
    ensures known { IfOk result (λ done. AreKnown desk.new.known done) }
{
    let mut kept = open_orders(alloc, handles.len() as u32)?;
    let orders = kept.as_mut_slice();
    let mut lists = Vec::new(alloc);
    let mut done = 0;
    collect_asks(&desk.known, 0, &mut desk.asks)?;
    while done < most {
        run_round(
            rt, alloc, flows, desk, &mut lists, orders, handles, done, gate,
        )?;
        done += 1;
        if none_left(desk.asks.as_slice()) {
            return Ok(done);
        }
    }
    Ok(done)
}

/// The rounds of a run by as many workers as there are bells, until no flow asks for more, at most `most` rounds. In each
/// round worker `w` does the parts of each flow `f` with `f mod workers = w`, in order, and passes the gate at `InCase`
/// before a part and at `AfterCase` after it. The call waits forever if a thread doesn't send its parts back, or if a
/// lock lost its flow.
pub fn run_by_workers<
    'e,
    C: Course + Send + Sync + 'e,
    F: RoundFlow<C> + Send + 'e,
    R: Threads + Wait + Sync,
    G: Gate + Sync,
>(
    rt: &'e R,
    alloc: Global,
    link: SharedLink,
    flows: &'e [LockedFlow<F>],
    most: u32,
    bells: &'e [Bell],
    gate: &'e G,
) -> Result<RunEnd<C>, NoMemory>
    requires begins { MayBegin C.link C.asks C.flows link (length flows.now) (length bells.now) most }
    ensures over { IfOk result (λ end. IsOver C.link C.asks C.flows most end.rounds end.link end.known) }
{
    thread::scope(
        thread::scope_env(),
        rt,
        move |scope| -> Result<RunEnd<C>, NoMemory>
            requires begins { MayBegin C.link C.asks C.flows link (length flows.now) (length bells.now) most }
            ensures over { IfOk result (λ end. IsOver C.link C.asks C.flows most end.rounds end.link end.known) }
        { run_in_scope(scope, rt, alloc, link, flows, most, bells, gate) },
    )
}

// A function of its own: what the closure of `run_by_workers` requires of threads is no part of its proof.
/// As `run_by_workers`, with the workers' threads in this scope.
fn run_in_scope<
    's,
    'e,
    C: Course + Send + Sync + 'e,
    F: RoundFlow<C> + Send + 'e,
    R: Threads + Wait + Sync,
    G: Gate + Sync,
>(
    scope: &'s Scope<'s, &'e ()>,
    rt: &'e R,
    alloc: Global,
    link: SharedLink,
    flows: &'e [LockedFlow<F>],
    most: u32,
    bells: &'e [Bell],
    gate: &'e G,
) -> Result<RunEnd<C>, NoMemory>
    requires begins { MayBegin C.link C.asks C.flows link (length flows.now) (length bells.now) most }
    ensures over { IfOk result (λ end. IsOver C.link C.asks C.flows most end.rounds end.link end.known) }
{
    let mut handles = start_workers(scope, rt, alloc, flows, bells, gate)?;
    run_desk(rt, alloc, link, flows, handles.as_mut_slice(), most, gate)
}

/// The rounds of a run on a desk with this link, whose workers have been started.
fn run_desk<'e, C: Course, F: RoundFlow<C>, R: Wait, G: Gate>(
    rt: &R,
    alloc: Global,
    link: SharedLink,
    flows: &[LockedFlow<F>],
    handles: &mut [WorkerHandle<'e, C>],
    most: u32,
    gate: &G,
) -> Result<RunEnd<C>, NoMemory>
    requires begins { MayBegin C.link C.asks C.flows link (length flows.now) (length handles.old) most }
    ensures over { IfOk result (λ end. IsOver C.link C.asks C.flows most end.rounds end.link end.known) }
{
    let known = know_flows(rt, alloc, flows)?;
    let mut desk = Desk::new(alloc, link, known);
    let rounds = run_rounds(rt, alloc, flows, &mut desk, handles, most, gate)?;
    Ok(end_of(desk, rounds))
}

/// The end of a run after this many rounds.
fn end_of<C: Course>(desk: Desk<C>, rounds: u32) -> RunEnd<C>
    ensures link { result.link ≡ desk.link }
    ensures rounds { result.rounds ≡ rounds }
    ensures known { result.known ≡ desk.known }
{
    let Desk {
        link,
        known,
        asks: _,
    } = desk;
    RunEnd {
        link,
        rounds,
        known,
    }
}

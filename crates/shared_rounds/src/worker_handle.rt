//! The workers of a run as its caller has them: the caller hands out the orders of a round and takes them back.
ghost use Rattle.std.specs.Prelude.{◌≡◌, ◌+◌, ◌<◌, ◌≤◌, true, false, None, length, map, IfOk, IfSome, IsFalse, IsTrue, OnOk};
ghost use Rattle.rtrb.specs.Ring.{sent};
ghost use Rattle.ccp_base.specs.Limits.{most_workers};
ghost use Rattle.shared_rounds.specs.Rounds.{acks_in_round};
ghost use Rattle.shared_rounds.specs.Orders.{order_of, parts_of_worker, AreDealt, IsDealtAt, AreIdle, IsSameFront, IsOneMore};
ghost use Rattle.shared_rounds.specs.KnownFlows.{flow_rounds, with_rounds, with_rounds_back, IsDone, AreDone, AreDoneOrOut, StayKnown};

use crate::course::Course;
use crate::dealt::Dealt;
use crate::desk::Desk;
use crate::line::{Bell, Receiver, Sender, line};
use crate::order::Order;
use crate::round_flow::{LockedFlow, RoundFlow};
use crate::worker::serve;
use ccp_base::{Gate, NoMemory};
use std::alloc::Global;
use std::sync::Wait;
use std::thread::{Scope, Threads};

/// The lines to a worker's thread and back.
#[derive(Drop)]
struct Lines<'e, C: Course> {
    orders: Sender<'e, Dealt<C>>,
    done: Receiver<'e, Dealt<C>>,
}

/// A worker, with the lines to its thread if it has one.
#[derive(Drop)]
pub(crate) struct WorkerHandle<'e, C: Course> {
    lines: Option<Lines<'e, C>>,
    /// Whether its thread has an order.
    is_busy: bool,
}

/// Starts the workers of a run: one for each bell, which wakes its thread. The first bell wakes the caller.
pub(crate) fn start_workers<
    's,
    'e,
    C: Course + Send + Sync + 'e,
    F: RoundFlow<C> + Send + 'e,
    R: Threads + Wait + Sync,
    G: Gate + Sync,
>(
    scope: &'s Scope<'s, &'e ()>,
    rt: &'e R,
    alloc: Global,
    flows: &'e [LockedFlow<F>],
    bells: &'e [Bell],
    gate: &'e G,
) -> Result<Vec<WorkerHandle<'e, C>>, NoMemory>
    ensures { IfOk result (λ handles. length handles.items ≡ length bells.now) }
{
    let mut handles = Vec::new(alloc);
    for worker in 0..bells.len() {
        let lines = start_worker(scope, rt, alloc, flows, bells, worker, gate)?;
        handles.push(WorkerHandle {
            lines,
            is_busy: false,
        })?;
    }
    Ok(handles)
}

/// Starts a worker's thread. Worker 0 has none, whose parts the caller does, nor has a worker without a flow, nor one
/// for which no thread can be started.
fn start_worker<
    's,
    'e,
    C: Course + Send + Sync + 'e,
    F: RoundFlow<C> + Send + 'e,
    R: Threads + Wait + Sync,
    G: Gate + Sync,
>(
    scope: &'s Scope<'s, &'e ()>,
    rt: &'e R,
    alloc: Global,
    flows: &'e [LockedFlow<F>],
    bells: &'e [Bell],
    worker: usize,
    gate: &'e G,
) -> Result<Option<Lines<'e, C>>, NoMemory>
    requires { worker < length bells.now }
{
    if worker == 0 || flows.len() <= worker {
        return Ok(None);
    }
    let (orders, coming) = line::<Dealt<C>>(alloc, &bells[worker])?;
    let (going, done) = line::<Dealt<C>>(alloc, &bells[0])?;
    let started = scope.spawn(move || serve(rt, alloc, flows, coming, going, gate));
    match started {
        Ok(_) => Ok(Some(Lines { orders, done })),
        Err(_) => Ok(None),
    }
}

impl<'e, C: Course> Lines<'e, C> {
    /// Sends the worker's thread its order. If that can't be sent, it stays in its place.
    fn send(&mut self, alloc: Global, order: &mut Order<C>) -> bool
        requires { order.old
            ≡ order_of order.old.workers order.old.worker order.old.round (acks_in_round C.link C.asks order.old.round) }
        ensures sent { IsTrue result → IsOneMore order.old
            (map (λ dealt. dealt.order) (sent self.old.orders.ring)) (map (λ dealt. dealt.order) (sent self.new.orders.ring)) }
        ensures unsent { IsFalse result → order.new ≡ order.old }
    {
        match self.orders.send(Dealt::new(order.take(alloc))) {
            Some(unsent) => {
                *order = unsent.order;
                false
            }
            None => true,
        }
    }

    /// The next order that comes back from the worker's thread and is the worker's in this round. Any other is ignored:
    /// a message's type can't say that it is the awaited one. The call waits forever if that doesn't come.
    fn receive<R: Wait>(&mut self, rt: &R, worker: u32, workers: u32, round: u32) -> Order<C>
        ensures { result ≡ order_of workers worker round (acks_in_round C.link C.asks round) }
    {
        for _ in rt.forever() {
            if let Some(dealt) = self.done.receive(rt) {
                let order = dealt.order;
                if order.is_of(worker, workers, round) {
                    return order;
                }
            }
        }
        unreachable!()
    }
}

impl<'e, C: Course> WorkerHandle<'e, C> {
    /// Hands an order that has a part to the worker's thread, and says whether that has it then. If not, the order stays
    /// in its place.
    fn hand_out(&mut self, alloc: Global, order: &mut Order<C>) -> bool
        requires { order.old
            ≡ order_of order.old.workers order.old.worker order.old.round (acks_in_round C.link C.asks order.old.round) }
        ensures busy { self.new.is_busy ≡ result }
        ensures here { IsFalse result → order.new ≡ order.old }
    {
        self.is_busy = false;
        if order.is_empty() {
            return false;
        }
        self.is_busy = match &mut self.lines {
            Some(lines) => lines.send(alloc, order),
            None => false,
        };
        self.is_busy
    }

    /// Waits until the worker's thread has done its order of this round. The call waits forever if the worker has no
    /// thread.
    fn take_back<R: Wait>(&mut self, rt: &R, worker: u32, workers: u32, round: u32) -> Order<C>
        ensures idle { self.new.is_busy ≡ false }
        ensures order { result ≡ order_of workers worker round (acks_in_round C.link C.asks round) }
    {
        self.is_busy = false;
        if let Some(lines) = &mut self.lines {
            return lines.receive(rt, worker, workers, round);
        }
        for _ in rt.forever() {}
        unreachable!()
    }
}

/// In a round with fewer acknowledgements than this the caller does all parts: a thread that sleeps takes longer to wake
/// than they take.
const FEW_ACKS: usize = 2048;

/// Does all orders of a round, and leaves no part in them: then the caller knows every flow that has a part. In a round
/// with few acknowledgements the caller does all of them. Else it does the first one that has a part, beside the threads
/// that do the others: a thread is woken only if two workers have parts.
pub(crate) fn do_orders<'e, C: Course, F: RoundFlow<C>, R: Wait, G: Gate>(
    rt: &R,
    alloc: Global,
    flows: &[LockedFlow<F>],
    desk: &mut Desk<C>,
    orders: &mut [Order<C>],
    handles: &mut [WorkerHandle<'e, C>],
    round: u32,
    gate: &G,
) -> Result<(), NoMemory>
    requires handles { length handles.old ≡ length orders.old }
    requires few { length orders.old ≤ most_workers }
    requires dealt { AreDealt (length orders.old) round (acks_in_round C.link C.asks round) orders.old }
    requires within { length (acks_in_round C.link C.asks round) ≤ length desk.old.known }
    ensures link { desk.new.link ≡ desk.old.link }
    ensures count { OnOk result (length desk.new.known ≡ length desk.old.known) }
    ensures stay { OnOk result (StayKnown (round + 1) desk.old.known desk.new.known) }
    ensures done { OnOk result
        (AreDone (length orders.old) round (acks_in_round C.link C.asks round) desk.new.known) }
{
    if acks_in(orders) < FEW_ACKS {
        do_all_here(rt, alloc, flows, desk, orders, round, gate)
    } else {
        do_by_threads(rt, alloc, flows, desk, orders, handles, round, gate)
    }
}

/// How many acknowledgements the parts of orders have in all.
fn acks_in<C: Course>(orders: &[Order<C>]) -> usize {
    let mut acks: usize = 0;
    for order in orders {
        acks = acks.saturating_add(order.acks());
    }
    acks
}

/// Does all orders here, the last one first, and leaves no part in them.
fn do_all_here<C: Course, F: RoundFlow<C>, R: Wait, G: Gate>(
    rt: &R,
    alloc: Global,
    flows: &[LockedFlow<F>],
    desk: &mut Desk<C>,
    orders: &mut [Order<C>],
    round: u32,
    gate: &G,
) -> Result<(), NoMemory>
    requires dealt { AreDealt (length orders.old) round (acks_in_round C.link C.asks round) orders.old }
    requires within { length (acks_in_round C.link C.asks round) ≤ length desk.old.known }
    ensures link { desk.new.link ≡ desk.old.link }
    ensures count { OnOk result (length desk.new.known ≡ length desk.old.known) }
    ensures stay { OnOk result (StayKnown (round + 1) desk.old.known desk.new.known) }
    ensures done { OnOk result
        (AreDone (length orders.old) round (acks_in_round C.link C.asks round) desk.new.known) }
{
    // for the contract alone
    let _ = round;
    let mut left = orders.len();
    while left > 0 {
        left -= 1;
        orders[left].do_here(rt, alloc, flows, desk, gate)?;
    }
    Ok(())
}

/// Does the first order that has a part here, and the others on their workers' threads, and leaves no part in them.
fn do_by_threads<'e, C: Course, F: RoundFlow<C>, R: Wait, G: Gate>(
    rt: &R,
    alloc: Global,
    flows: &[LockedFlow<F>],
    desk: &mut Desk<C>,
    orders: &mut [Order<C>],
    handles: &mut [WorkerHandle<'e, C>],
    round: u32,
    gate: &G,
) -> Result<(), NoMemory>
    requires handles { length handles.old ≡ length orders.old }
    requires few { length orders.old ≤ most_workers }
    requires dealt { AreDealt (length orders.old) round (acks_in_round C.link C.asks round) orders.old }
    requires within { length (acks_in_round C.link C.asks round) ≤ length desk.old.known }
    ensures link { desk.new.link ≡ desk.old.link }
    ensures count { OnOk result (length desk.new.known ≡ length desk.old.known) }
    ensures stay { OnOk result (StayKnown (round + 1) desk.old.known desk.new.known) }
    ensures done { OnOk result
        (AreDone (length orders.old) round (acks_in_round C.link C.asks round) desk.new.known) }
{
    let first = idle_at_front(orders);
    hand_out_all(
        rt,
        alloc,
        flows,
        desk,
        orders,
        handles,
        first + 1,
        round,
        gate,
    )?;
    do_first(rt, alloc, flows, desk, orders, first, round, gate)?;
    take_back_all(rt, desk, orders, handles, round)
}

/// Does the order in this place here, if there is one.
fn do_first<C: Course, F: RoundFlow<C>, R: Wait, G: Gate>(
    rt: &R,
    alloc: Global,
    flows: &[LockedFlow<F>],
    desk: &mut Desk<C>,
    orders: &mut [Order<C>],
    first: usize,
    round: u32,
    gate: &G,
) -> Result<(), NoMemory>
    requires dealt { IsDealtAt (length orders.old) round (acks_in_round C.link C.asks round) orders.old first }
    requires within { length (acks_in_round C.link C.asks round) ≤ length desk.old.known }
    ensures link { desk.new.link ≡ desk.old.link }
    ensures count { OnOk result (length desk.new.known ≡ length desk.old.known) }
    ensures stay { OnOk result (StayKnown (round + 1) desk.old.known desk.new.known) }
    ensures done { OnOk result (first < length orders.old
        → IsDone (length orders.old) round (acks_in_round C.link C.asks round) desk.new.known first) }
{
    // for the contract alone
    let _ = round;
    if first < orders.len() {
        return orders[first].do_here(rt, alloc, flows, desk, gate);
    }
    Ok(())
}

/// How many orders without a part there are before the first one that has one.
fn idle_at_front<C: Course>(orders: &[Order<C>]) -> usize
    ensures within { result ≤ length orders.now }
    ensures idle { AreIdle result orders.now }
{
    let mut idle = 0;
    while idle < orders.len() && orders[idle].is_empty() {
        idle += 1;
    }
    idle
}

/// Hands the orders from this place on that have a part to their workers' threads, or does them here.
fn hand_out_all<'e, C: Course, F: RoundFlow<C>, R: Wait, G: Gate>(
    rt: &R,
    alloc: Global,
    flows: &[LockedFlow<F>],
    desk: &mut Desk<C>,
    orders: &mut [Order<C>],
    handles: &mut [WorkerHandle<'e, C>],
    first: usize,
    round: u32,
    gate: &G,
) -> Result<(), NoMemory>
    requires handles { length handles.old ≡ length orders.old }
    requires dealt { AreDealt (length orders.old) round (acks_in_round C.link C.asks round) orders.old }
    requires within { length (acks_in_round C.link C.asks round) ≤ length desk.old.known }
    ensures link { desk.new.link ≡ desk.old.link }
    ensures count { OnOk result (length desk.new.known ≡ length desk.old.known) }
    ensures stay { OnOk result (StayKnown (round + 1) desk.old.known desk.new.known) }
    ensures front { OnOk result (IsSameFront first orders.old orders.new) }
    ensures out { OnOk result (AreDoneOrOut (length orders.old) round (acks_in_round C.link C.asks round)
        (map (λ handle. handle.is_busy) handles.new) desk.new.known first) }
{
    // for the contract alone
    let _ = round;
    for worker in first..orders.len() {
        hand_out(
            rt,
            alloc,
            flows,
            desk,
            &mut orders[worker],
            &mut handles[worker],
            gate,
        )?;
    }
    Ok(())
}

/// Hands an order to its worker's thread. If that doesn't have it then, the order is done here.
fn hand_out<'e, C: Course, F: RoundFlow<C>, R: Wait, G: Gate>(
    rt: &R,
    alloc: Global,
    flows: &[LockedFlow<F>],
    desk: &mut Desk<C>,
    order: &mut Order<C>,
    handle: &mut WorkerHandle<'e, C>,
    gate: &G,
) -> Result<(), NoMemory>
    requires { order.old
        ≡ order_of order.old.workers order.old.worker order.old.round (acks_in_round C.link C.asks order.old.round) }
    ensures link { desk.new.link ≡ desk.old.link }
    ensures out { OnOk result (handle.new.is_busy ≡ true → desk.new.known ≡ desk.old.known) }
    ensures here { OnOk result (handle.new.is_busy ≡ false → desk.new.known
        ≡ with_rounds (flow_rounds order.old.round order.old.parts) desk.old.known) }
{
    if handle.hand_out(alloc, order) {
        return Ok(());
    }
    order.do_here(rt, alloc, flows, desk, gate)
}

/// Waits for the threads that have orders, and puts these back into their places.
fn take_back_all<'e, C: Course, R: Wait>(
    rt: &R,
    desk: &mut Desk<C>,
    orders: &mut [Order<C>],
    handles: &mut [WorkerHandle<'e, C>],
    round: u32,
) -> Result<(), NoMemory>
    requires handles { length handles.old ≡ length orders.old }
    requires few { length orders.old ≤ most_workers }
    requires out { AreDoneOrOut (length orders.old) round (acks_in_round C.link C.asks round)
        (map (λ handle. handle.is_busy) handles.old) desk.old.known 0 }
    requires within { length (acks_in_round C.link C.asks round) ≤ length desk.old.known }
    ensures link { desk.new.link ≡ desk.old.link }
    ensures count { OnOk result (length desk.new.known ≡ length desk.old.known) }
    ensures stay { OnOk result (StayKnown (round + 1) desk.old.known desk.new.known) }
    ensures done { OnOk result
        (AreDone (length orders.old) round (acks_in_round C.link C.asks round) desk.new.known) }
{
    let workers = orders.len() as u32;
    for worker in 0..workers {
        let place = worker as usize;
        take_back(
            rt,
            desk,
            &mut orders[place],
            &mut handles[place],
            worker,
            workers,
            round,
        )?;
    }
    Ok(())
}

/// Waits for a worker's thread if it has an order, and puts that back into its place, so that its memory serves the next
/// round.
fn take_back<'e, C: Course, R: Wait>(
    rt: &R,
    desk: &mut Desk<C>,
    place: &mut Order<C>,
    handle: &mut WorkerHandle<'e, C>,
    worker: u32,
    workers: u32,
    round: u32,
) -> Result<(), NoMemory>
    ensures link { desk.new.link ≡ desk.old.link }
    ensures idle { handle.new.is_busy ≡ false }
    ensures none { handle.old.is_busy ≡ false → desk.new.known ≡ desk.old.known }
    ensures known { OnOk result (handle.old.is_busy ≡ true → desk.new.known ≡ with_rounds_back
        (flow_rounds round (parts_of_worker workers worker (acks_in_round C.link C.asks round))) desk.old.known) }
{
    if !handle.is_busy {
        return Ok(());
    }
    let order = handle.take_back(rt, worker, workers, round);
    *place = order.hand_in(rt, desk)?;
    Ok(())
}

//! What a worker is to do in a round: the parts of its flows.
ghost use Rattle.std.specs.Prelude.{◌≡◌, ◌+◌, ◌%◌, ◌≤◌, ◌↔◌, [], length, map, option_to_list, slice_set, IfOk, IfSome, IsSome, IsTrue, OnOk};
ghost use Rattle.std.specs.List.{All};
ghost use Rattle.ccp_base.specs.Limits.{most_workers};
ghost use Rattle.shared_rounds.specs.Orders.{FlowPart, OrderState, with_flow_part, AreDealt};
ghost use Rattle.shared_rounds.specs.KnownFlows.{FlowRound, flow_rounds, with_rounds, with_rounds_back};

use crate::course::Course;
use crate::desk::Desk;
use crate::known_flow::{KnownFlow, KnownFlows, PassedPart};
use crate::part_desk::PartDesk;
use crate::round_acks::RoundAcks;
use crate::round_flow::{LockedFlow, RoundFlow};
use ccp_base::{Gate, NoMemory};
use std::alloc::Global;
use std::marker::Model;
use std::sync::Wait;
use worker_desk::{CaseRun, run_between_points};

/// A flow's part of a round: what the flow is given, and, once a thread has done the part, what is known of the flow.
#[derive(Drop)]
pub(crate) struct Part<C: Course> {
    pub(crate) acks: RoundAcks<C>,
    /// None until a thread has done the part. What it answered is out of memory only if the flow ran out of memory.
    pub(crate) known: Option<Result<PassedPart<C>, NoMemory>>,
}

/// The parts of one worker in the round that comes after `round` rounds, in the order of its flows: of `workers` workers,
/// worker `worker` does the parts of each flow `f` with `f mod workers = worker`.
#[derive(Drop)]
pub(crate) struct Order<C: Course> {
    worker: u32,
    workers: u32,
    round: u32,
    /// The parts before the last one.
    earlier: Vec<Part<C>>,
    /// The last part. A short round has no other, and then the thread that gets the message has the part with it: it
    /// needn't wait for a list from the sender's processor.
    last: Option<Part<C>>,
    ghost own: { All (λ (part : FlowRound). (part.0 % workers ≡ worker) × (part.1 ≡ round))
        (map (λ part. (part.acks.number, part.acks.round)) earlier.items) },
    ghost own_last: { All (λ (part : FlowRound). (part.0 % workers ≡ worker) × (part.1 ≡ round))
        (map (λ part. (part.acks.number, part.acks.round)) (option_to_list last)) },
}

/// What is known of the flows is no part of the model: when the parts are done, the order is as before.
impl<C: Course> Model for Order<C> {
    ghost use Rattle.std.specs.Prelude.{◌++◌, map, option_to_list};
    ghost use Rattle.shared_rounds.specs.Orders.{OrderState};

    ghost Value = { OrderState };

    ghost view = { λ o. record {
      worker = o.worker;
      workers = o.workers;
      round = o.round;
      parts = map (λ part. (part.acks.number, part.acks.acks)) (o.earlier.items ++ option_to_list o.last);
    } };
}

impl<C: Course> Order<C> {
    /// An order without a part. It takes no memory yet.
    fn new(alloc: Global, worker: u32, workers: u32, round: u32) -> Self
        ensures { result ≡ record { worker = worker; workers = workers; round = round; parts = [] } }
    {
        Order {
            worker,
            workers,
            round,
            earlier: Vec::new(alloc),
            last: None,
        }
    }

    /// Begins anew without a part, as the order of this worker in this round. The order keeps its memory.
    fn begin(&mut self, worker: u32, workers: u32, round: u32)
        ensures { self.new ≡ record { worker = worker; workers = workers; round = round; parts = [] } }
    {
        self.earlier.clear();
        self.last = None;
        self.worker = worker;
        self.workers = workers;
        self.round = round;
    }

    /// Adds the part of a flow of the worker, in which the flow is given these acknowledgements.
    pub(crate) fn push(&mut self, acks: RoundAcks<C>) -> Result<(), NoMemory>
        requires own { acks.number % self.old.workers ≡ self.old.worker }
        requires round { acks.round ≡ self.old.round }
        ensures { OnOk result (self.new ≡ with_flow_part (acks.number, acks.acks) self.old) }
    {
        let before = self.last.replace(Part { acks, known: None });
        if let Some(part) = before {
            self.earlier.push(part)?;
        }
        Ok(())
    }

    /// The worker that does the parts.
    pub(crate) fn worker(&self) -> u32
        ensures { result ≡ self.now.worker }
    {
        self.worker
    }

    /// Whether these are the parts of worker `worker`, of `workers` workers, in round `round`.
    pub(crate) fn is_of(&self, worker: u32, workers: u32, round: u32) -> bool
        ensures { IsTrue result
            ↔ ((self.now.worker ≡ worker) × (self.now.workers ≡ workers) × (self.now.round ≡ round)) }
    {
        self.worker == worker && self.workers == workers && self.round == round
    }

    /// Whether the worker has nothing to do.
    pub(crate) fn is_empty(&self) -> bool
        ensures { IsTrue result → self.now.parts ≡ [] }
    {
        self.last.is_none() && self.earlier.is_empty()
    }

    /// How many acknowledgements its parts have in all.
    pub(crate) fn acks(&self) -> usize {
        let mut acks = acks_of(&self.last);
        for part in self.earlier.as_slice() {
            acks = acks.saturating_add(part.acks.acks.len());
        }
        acks
    }

    /// Does the parts on a thread. Each then has what is known of its flow.
    pub(crate) fn do_parts<F: RoundFlow<C>, R: Wait, G: Gate>(
        &mut self,
        rt: &R,
        alloc: Global,
        flows: &[LockedFlow<F>],
        gate: &G,
    )
        ensures { self.new ≡ self.old }
    {
        let worker = self.worker;
        do_all(rt, alloc, flows, worker, self.earlier.as_mut_slice(), gate);
        do_last(rt, alloc, flows, worker, &mut self.last, gate);
    }

    /// Does the parts here, after which the desk has what is known of their flows. The order is without a part then, and
    /// keeps its memory.
    pub(crate) fn do_here<F: RoundFlow<C>, R: Wait, G: Gate>(
        &mut self,
        rt: &R,
        alloc: Global,
        flows: &[LockedFlow<F>],
        desk: &mut Desk<C>,
        gate: &G,
    ) -> Result<(), NoMemory>
        ensures link { desk.new.link ≡ desk.old.link }
        ensures none { OnOk result (self.new.parts ≡ []) }
        ensures known { OnOk result (desk.new.known
            ≡ with_rounds (flow_rounds self.old.round self.old.parts) desk.old.known) }
    {
        let worker = self.worker;
        know_all(
            rt,
            alloc,
            flows,
            worker,
            self.earlier.as_slice(),
            &mut desk.known,
            gate,
        )?;
        know_last(rt, alloc, flows, worker, &self.last, &mut desk.known, gate)?;
        desk.give_back_all(&mut self.earlier);
        desk.give_back_last(&mut self.last);
        Ok(())
    }

    /// Hands the parts, which a thread did, in at the desk. The order is without a part then, and keeps its memory.
    pub(crate) fn hand_in<R: Wait>(self, rt: &R, desk: &mut Desk<C>) -> Result<Self, NoMemory>
        ensures link { desk.new.link ≡ desk.old.link }
        ensures none { IfOk result (λ order. order ≡ record self { parts = [] }) }
        ensures known { OnOk result (desk.new.known
            ≡ with_rounds_back (flow_rounds self.round self.parts) desk.old.known) }
    {
        let mut earlier = self.earlier;
        let mut last = self.last;
        desk.take_in_last(rt, &mut last)?;
        desk.take_in_all(rt, &mut earlier)?;
        Ok(Order {
            worker: self.worker,
            workers: self.workers,
            round: self.round,
            earlier,
            last,
        })
    }

    /// Takes the order out of its place, where one without a part is then.
    pub(crate) fn take(&mut self, alloc: Global) -> Self
        ensures taken { result ≡ self.old }
        ensures left { self.new ≡ record self.old { parts = [] } }
    {
        let none = Order::new(alloc, self.worker, self.workers, self.round);
        std::mem::replace(self, none)
    }
}

/// How many acknowledgements a part has, none if there is no part.
fn acks_of<C: Course>(part: &Option<Part<C>>) -> usize {
    match part {
        Some(part) => part.acks.acks.len(),
        None => 0,
    }
}

/// Does parts of a worker on its thread.
fn do_all<C: Course, F: RoundFlow<C>, R: Wait, G: Gate>(
    rt: &R,
    alloc: Global,
    flows: &[LockedFlow<F>],
    worker: u32,
    parts: &mut [Part<C>],
    gate: &G,
)
    ensures acks { map {B = FlowPart} (λ part. (part.acks.number, part.acks.acks)) parts.new
        ≡ map {B = FlowPart} (λ part. (part.acks.number, part.acks.acks)) parts.old }
    ensures rounds { map {B = FlowRound} (λ part. (part.acks.number, part.acks.round)) parts.new
        ≡ map {B = FlowRound} (λ part. (part.acks.number, part.acks.round)) parts.old }
{
    for part in parts.iter_mut() {
        do_one(rt, alloc, flows, worker, part, gate);
    }
}

/// Does the last part of a worker on its thread, if it has any.
fn do_last<C: Course, F: RoundFlow<C>, R: Wait, G: Gate>(
    rt: &R,
    alloc: Global,
    flows: &[LockedFlow<F>],
    worker: u32,
    last: &mut Option<Part<C>>,
    gate: &G,
)
    ensures acks { map {B = FlowPart} (λ part. (part.acks.number, part.acks.acks)) (option_to_list last.new)
        ≡ map {B = FlowPart} (λ part. (part.acks.number, part.acks.acks)) (option_to_list last.old) }
    ensures rounds { map {B = FlowRound} (λ part. (part.acks.number, part.acks.round)) (option_to_list last.new)
        ≡ map {B = FlowRound} (λ part. (part.acks.number, part.acks.round)) (option_to_list last.old) }
{
    if let Some(part) = last {
        do_one(rt, alloc, flows, worker, part, gate);
    }
}

/// Does a part of a worker on its thread.
fn do_one<C: Course, F: RoundFlow<C>, R: Wait, G: Gate>(
    rt: &R,
    alloc: Global,
    flows: &[LockedFlow<F>],
    worker: u32,
    part: &mut Part<C>,
    gate: &G,
)
    ensures acks { part.new.acks ≡ part.old.acks }
    ensures done { IsSome part.new.known }
    ensures worker { IfSome part.new.known (λ known. IfOk known (λ passed. passed.run.worker ≡ worker)) }
{
    part.known = Some(pass_part(rt, alloc, flows, worker, &part.acks, gate));
}

/// Does parts of a worker here, in order, and keeps what is known of their flows.
fn know_all<C: Course, F: RoundFlow<C>, R: Wait, G: Gate>(
    rt: &R,
    alloc: Global,
    flows: &[LockedFlow<F>],
    worker: u32,
    parts: &[Part<C>],
    known: &mut KnownFlows<C>,
    gate: &G,
) -> Result<(), NoMemory>
    ensures { OnOk result (known.new
        ≡ with_rounds (map {B = FlowRound} (λ part. (part.acks.number, part.acks.round)) parts.now) known.old) }
{
    let mut rest = parts;
    while let Some((part, later)) = rest.split_first() {
        know_one(rt, alloc, flows, worker, &part.acks, known, gate)?;
        rest = later;
    }
    Ok(())
}

/// Does the last part of a worker here, if it has any, and keeps what is known of its flow.
fn know_last<C: Course, F: RoundFlow<C>, R: Wait, G: Gate>(
    rt: &R,
    alloc: Global,
    flows: &[LockedFlow<F>],
    worker: u32,
    last: &Option<Part<C>>,
    known: &mut KnownFlows<C>,
    gate: &G,
) -> Result<(), NoMemory>
    ensures { OnOk result (known.new ≡ with_rounds
        (map {B = FlowRound} (λ part. (part.acks.number, part.acks.round)) (option_to_list last.now)) known.old) }
{
    match last {
        Some(part) => know_one(rt, alloc, flows, worker, &part.acks, known, gate),
        None => Ok(()),
    }
}

/// Does a part of a worker here, and keeps what is known of its flow.
fn know_one<C: Course, F: RoundFlow<C>, R: Wait, G: Gate>(
    rt: &R,
    alloc: Global,
    flows: &[LockedFlow<F>],
    worker: u32,
    acks: &RoundAcks<C>,
    known: &mut KnownFlows<C>,
    gate: &G,
) -> Result<(), NoMemory>
    ensures { OnOk result (known.new
        ≡ slice_set known.old acks.now.number (acks.now.number, acks.now.round + 1)) }
{
    let part = pass_part(rt, alloc, flows, worker, acks, gate)?;
    known.keep_part(part);
    Ok(())
}

/// Runs a part of a worker between its two points of the gate, and answers what is known of its flow then.
fn pass_part<C: Course, F: RoundFlow<C>, R: Wait, G: Gate>(
    rt: &R,
    alloc: Global,
    flows: &[LockedFlow<F>],
    worker: u32,
    acks: &RoundAcks<C>,
    gate: &G,
) -> Result<PassedPart<C>, NoMemory>
    ensures number { IfOk result (λ part. part.flow.number ≡ acks.now.number) }
    ensures round { IfOk result (λ part. part.flow.round ≡ acks.now.round + 1) }
    ensures worker { IfOk result (λ part. part.run.worker ≡ worker) }
{
    let mut desk = PartDesk {
        rt,
        alloc,
        flows,
        acks,
        gate,
        known: None,
    };
    let run = run_between_points(&mut desk, worker, acks.number)?;
    passed_part(acks, desk.known, run)
}

// A function of its own: what is known of the flow is all that it needs of the desk.
/// What is known of a flow after its part of a round, which was run between these two points of the gate.
fn passed_part<C: Course>(
    acks: &RoundAcks<C>,
    known: Option<Result<KnownFlow<C>, NoMemory>>,
    run: CaseRun,
) -> Result<PassedPart<C>, NoMemory>
    requires done { IsSome known }
    requires own { run.case ≡ acks.now.number }
    requires number { IfSome known (λ known. IfOk known (λ flow. flow.number ≡ acks.now.number)) }
    requires round { IfSome known (λ known. IfOk known (λ flow. flow.round ≡ acks.now.round + 1)) }
    ensures number { IfOk result (λ part. part.flow.number ≡ acks.now.number) }
    ensures round { IfOk result (λ part. part.flow.round ≡ acks.now.round + 1) }
    ensures run { IfOk result (λ part. part.run ≡ run) }
{
    // for the contract alone
    let _ = acks;
    match known {
        Some(known) => Ok(PassedPart { flow: known?, run }),
        None => unreachable!(),
    }
}

/// An order for each worker, in their order. They serve one round after another.
pub(crate) fn open_orders<C: Course>(alloc: Global, workers: u32) -> Result<Vec<Order<C>>, NoMemory>
    ensures { IfOk result (λ orders. length orders.items ≡ workers) }
{
    let mut orders = Vec::new(alloc);
    for worker in 0..workers {
        orders.push(Order::new(alloc, worker, workers, 0))?;
    }
    Ok(orders)
}

/// Begins the orders of a round: each is without a part, and in the place of its worker. The orders keep their memory.
pub(crate) fn begin_orders<C: Course>(orders: &mut [Order<C>], round: u32)
    requires { length orders.old ≤ most_workers }
    ensures { AreDealt (length orders.old) round [] orders.new }
{
    let workers = orders.len() as u32;
    let mut worker = 0;
    for order in orders.iter_mut() {
        order.begin(worker, workers, round);
        worker += 1;
    }
}

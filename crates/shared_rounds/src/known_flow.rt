//! What the caller of a run knows of its flows between two rounds.
ghost use Rattle.std.specs.Prelude.{◌≡◌, ◌+◌, ◌<◌, ◌≤◌, ◌↔◌, ◌++◌, ◌∷◌, [], Some, length, map, slice_get, slice_set, IsTrue, OnOk};
ghost use Rattle.ccp_base.specs.Limits.{most_flows};
ghost use Rattle.shared_rounds.specs.Rounds.{Rests};
ghost use Rattle.shared_rounds.specs.KnownFlows.{IsKnown};

use crate::course::Course;
use crate::round_acks::RoundAcks;
use ccp_base::NoMemory;
use shared_link::Ask;
use std::alloc::Global;
use std::marker::{Model, PhantomData};
use worker_desk::CaseRun;

/// What the caller knows of a flow after `round` rounds: what it asks for, and that it stands as it did after `since`
/// rounds. A flow without acknowledgements in a round stays as it is, so the caller leaves its lock alone.
#[derive(Drop)]
pub struct KnownFlow<C: Course> {
    /// The flow's number.
    pub number: u32,
    /// After how many rounds its lock has it.
    pub since: u32,
    /// After how many rounds it is known.
    pub round: u32,
    ask: Ask,
    of: PhantomData<C>,
    ghost asks: { slice_get (C.asks round) number ≡ Some ask },
    ghost before: { since ≤ round },
    ghost rests: { Rests C.link C.asks number since round },
}

impl<C: Course> KnownFlow<C> {
    /// A flow that its lock has after this many rounds.
    pub fn new(number: u32, round: u32, ask: Ask) -> Self
        requires { slice_get (C.asks round) number ≡ Some ask }
        ensures number { result.number ≡ number }
        ensures round { result.round ≡ round }
    {
        KnownFlow {
            number,
            since: round,
            round,
            ask,
            of: PhantomData,
        }
    }

    /// Whether this is that flow after this many rounds.
    pub(crate) fn is_at(&self, number: u32, round: u32) -> bool
        ensures { IsTrue result ↔ ((self.now.number ≡ number) × (self.now.round ≡ round)) }
    {
        self.number == number && self.round == round
    }

    /// What the flow asks the link for.
    pub(crate) fn ask(&self) -> Ask
        ensures { slice_get (C.asks self.now.round) self.now.number ≡ Some result }
    {
        self.ask
    }

    /// Continues by a round in which the flow has no acknowledgement.
    fn rest(&mut self, acks: &RoundAcks<C>)
        requires none { length acks.now.acks ≡ 0 }
        requires number { self.old.number ≡ acks.now.number }
        requires round { self.old.round ≡ acks.now.round }
        ensures number { self.new.number ≡ self.old.number }
        ensures round { self.new.round ≡ self.old.round + 1 }
    {
        self.round = acks.round + 1;
    }
}

/// What is known of a flow after its part of a round, and that a worker ran the part between its two points of the gate,
/// which it passed with the flow's number.
#[derive(Drop)]
pub(crate) struct PassedPart<C: Course> {
    pub(crate) flow: KnownFlow<C>,
    pub(crate) run: CaseRun,
    ghost own: { run.case ≡ flow.number },
}

/// What the caller knows of the flows of a run, in their order.
#[derive(Drop)]
pub struct KnownFlows<C: Course> {
    places: Vec<KnownFlow<C>>,
}

/// For each place: which flow it has, and after how many rounds that is known.
impl<C: Course> Model for KnownFlows<C> {
    ghost use Rattle.std.specs.Prelude.{ℕ, List, map};

    ghost Value = { List (ℕ × ℕ) };

    ghost view = { λ known. map (λ place. (place.number, place.round)) known.places.items };
}

impl<C: Course> KnownFlows<C> {
    /// Of no flow.
    pub(crate) fn new(alloc: Global) -> Self
        ensures { result ≡ [] }
    {
        KnownFlows {
            places: Vec::new(alloc),
        }
    }

    /// Adds what is known of one more flow.
    pub(crate) fn push(&mut self, flow: KnownFlow<C>) -> Result<(), NoMemory>
        ensures { OnOk result (self.new ≡ self.old ++ (flow.number, flow.round) ∷ []) }
    {
        self.places.push(flow)?;
        Ok(())
    }

    /// How many flows there are.
    pub(crate) fn len(&self) -> u32
        requires { length self.now ≤ most_flows }
        ensures { result ≡ length self.now }
    {
        self.places.len() as u32
    }

    /// What is known of a flow.
    pub fn at(&self, number: u32) -> &KnownFlow<C>
        requires { number < length self.now }
        ensures { slice_get self.now number ≡ Some (result.now.number, result.now.round) }
    {
        &self.places[number as usize]
    }

    /// Keeps what is known of a flow after its part of a round.
    pub(crate) fn keep_part(&mut self, part: PassedPart<C>)
        ensures { self.new ≡ slice_set self.old part.flow.number (part.flow.number, part.flow.round) }
    {
        self.keep(part.flow);
    }

    /// Keeps what is known of a flow in its place.
    fn keep(&mut self, flow: KnownFlow<C>)
        ensures { self.new ≡ slice_set self.old flow.number (flow.number, flow.round) }
    {
        let number = flow.number as usize;
        if number < self.places.len() {
            self.places[number] = flow;
        }
    }

    /// A flow rests in a round in which it has no acknowledgement.
    pub(crate) fn rest(&mut self, acks: &RoundAcks<C>)
        requires none { length acks.now.acks ≡ 0 }
        requires known { IsKnown self.old acks.now.number acks.now.round }
        ensures { self.new ≡ slice_set self.old acks.now.number (acks.now.number, acks.now.round + 1) }
    {
        self.places[acks.number as usize].rest(acks);
    }
}

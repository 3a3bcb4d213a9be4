//! A flow of a run between two rounds.
ghost use Rattle.std.specs.Prelude.{◌≡◌, ◌+◌, ◌≤◌, ◌↔◌, ℕ, Some, length, slice_get, IfOk, IsOk, IsTrue};
ghost use Rattle.ccp_base.specs.Limits.{most_rounds};
ghost use Rattle.flow_core.specs.Cores.{CoreState};
ghost use Rattle.shared_run.specs.Courses.{flows_after};
ghost use Rattle.shared_run.specs.RoundFlows.{AreRoomy, run_flow_in};

use crate::case_course::{CaseCourse, CourseOf};
use crate::flow::{ask_of, run_part};
use campaign_core::{GivenFlow, TalliedFlow};
use ccp_base::NoMemory;
use shared_rounds::{KnownFlow, LockedFlow, RoundAcks, RoundFlow};
use std::alloc::Global;
use std::marker::PhantomData;
use std::sync::Wait;

/// A flow of a run, its number, and how many rounds it is through. Unless its part of a round ran out of memory, it is
/// that flow of the run after these rounds.
#[derive(Drop)]
pub(crate) struct RunFlow<C: CaseCourse, F: GivenFlow> {
    flow: TalliedFlow<F>,
    number: u32,
    round: u32,
    /// What its last part of a round answered.
    heard: Result<(), NoMemory>,
    of: PhantomData<C>,
    ghost roomy: { (rounds : ℕ) → rounds ≤ most_rounds → (core : CoreState)
        → slice_get (flows_after C.link C.cases rounds) number ≡ Some core → AreRoomy core.acks },
    ghost stands: { IsOk heard → run_flow_in F.at C.link C.cases round number ≡ Some (flow.flow, flow.tally) },
}

/// A flow of a run behind its lock.
pub(crate) type LockedRunFlow<C, F> = LockedFlow<RunFlow<C, F>>;

impl<C: CaseCourse, F: GivenFlow> RunFlow<C, F> {
    /// A flow before the first round.
    pub(crate) fn begin(flow: TalliedFlow<F>, number: u32) -> Self
        requires roomy { (rounds : ℕ) → rounds ≤ most_rounds → (core : CoreState)
            → slice_get (flows_after C.link C.cases rounds) number ≡ Some core → AreRoomy core.acks }
        requires stands { run_flow_in F.at C.link C.cases 0 number ≡ Some (flow.flow, flow.tally) }
    {
        RunFlow {
            flow,
            number,
            round: 0,
            heard: Ok(()),
            of: PhantomData,
        }
    }

    /// Whether this is that flow after this many rounds.
    pub(crate) fn is_at(&self, number: u32, round: u32) -> bool
        ensures { IsTrue result
            ↔ (IsOk self.now.heard × (self.now.number ≡ number) × (self.now.round ≡ round)) }
    {
        self.heard.is_ok() && self.number == number && self.round == round
    }

    /// What the caller is to know of the flow, unless its part ran out of memory.
    pub(crate) fn known(&self) -> Result<KnownFlow<CourseOf<C>>, NoMemory>
        ensures heard { IsOk result ↔ IsOk self.now.heard }
        ensures number { IfOk result (λ known. known.number ≡ self.now.number) }
        ensures round { IfOk result (λ known. known.round ≡ self.now.round) }
    {
        match self.heard {
            Ok(()) => Ok(KnownFlow::new(self.number, self.round, ask_of(&self.flow))),
            Err(error) => Err(error),
        }
    }

    /// The flow's part of a round, in which it has these acknowledgements. It is through the round then, unless memory
    /// ran out on the way.
    pub(crate) fn hear(&mut self, alloc: Global, acks: &RoundAcks<CourseOf<C>>)
        requires whole { IsOk self.old.heard }
        requires number { self.old.number ≡ acks.now.number }
        requires since { self.old.round ≡ acks.now.since }
        ensures number { self.new.number ≡ self.old.number }
        ensures through { IsOk self.new.heard → self.new.round ≡ acks.now.round + 1 }
        ensures nothing { length acks.now.acks ≡ 0 → IsOk self.new.heard }
    {
        match run_part(&mut self.flow, alloc, acks.acks.as_slice()) {
            Ok(()) => self.round = acks.round + 1,
            Err(error) => self.heard = Err(error),
        }
    }

    /// That flow, which has rested since its last acknowledgement as the caller knows. The call waits forever if it
    /// isn't the flow that the caller knows: a lock's type can't say that the lock kept it.
    pub(crate) fn into_flow<R: Wait>(self, rt: &R, known: &KnownFlow<CourseOf<C>>) -> TalliedFlow<F>
        ensures { run_flow_in F.at C.link C.cases known.now.round known.now.number ≡ Some (result.flow, result.tally) }
    {
        if !self.is_at(known.number, known.since) {
            for _ in rt.forever() {}
            unreachable!()
        }
        self.flow
    }
}

impl<C: CaseCourse, F: GivenFlow> RoundFlow<CourseOf<C>> for RunFlow<C, F> {
    fn know<R: Wait>(&self, rt: &R, number: u32) -> Result<KnownFlow<CourseOf<C>>, NoMemory> {
        if !self.is_at(number, 0) {
            for _ in rt.forever() {}
            unreachable!()
        }
        self.known()
    }

    fn hear_part<R: Wait>(
        &mut self,
        rt: &R,
        alloc: Global,
        acks: &RoundAcks<CourseOf<C>>,
    ) -> Result<KnownFlow<CourseOf<C>>, NoMemory> {
        if !self.is_at(acks.number, acks.since) {
            for _ in rt.forever() {}
            unreachable!()
        }
        self.hear(alloc, acks);
        self.known()
    }
}

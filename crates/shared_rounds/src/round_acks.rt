//! What a flow of a run is given in a round.
ghost use Rattle.std.specs.Prelude.{◌≡◌, ◌<◌, ◌≤◌, Some, slice_get};
ghost use Rattle.ccp_base.specs.Limits.{most_rounds};
ghost use Rattle.shared_rounds.specs.Rounds.{acks_in_round, Rests};

use crate::course::Course;
use crate::known_flow::KnownFlow;
use shared_link::UnratedAcks;
use std::marker::PhantomData;

/// The acknowledgements of a flow in the round that comes after `round` rounds. The flow stands as it did after `since`
/// rounds.
#[derive(Drop)]
pub struct RoundAcks<C: Course> {
    /// Its acknowledgements in the round.
    pub acks: UnratedAcks,
    /// The flow's number.
    pub number: u32,
    /// After how many rounds its lock has it.
    pub since: u32,
    /// How many rounds were before.
    pub round: u32,
    of: PhantomData<C>,
    ghost are: { slice_get (acks_in_round C.link C.asks round) number ≡ Some acks },
    ghost few: { round < most_rounds },
    ghost before: { since ≤ round },
    ghost rests: { Rests C.link C.asks number since round },
}

impl<C: Course> RoundAcks<C> {
    /// A flow's acknowledgements in a round of the run.
    pub(crate) fn new(acks: UnratedAcks, number: u32, round: u32) -> Self
        requires are { slice_get (acks_in_round C.link C.asks round) number ≡ Some acks }
        requires few { round < most_rounds }
        ensures acks { result.acks ≡ acks }
        ensures number { result.number ≡ number }
        ensures round { result.round ≡ round }
    {
        RoundAcks {
            acks,
            number,
            since: round,
            round,
            of: PhantomData,
        }
    }

    /// Says through which rounds the flow has rested, as is known of it.
    pub(crate) fn rest_since(&mut self, known: &KnownFlow<C>)
        requires number { known.now.number ≡ self.old.number }
        requires round { known.now.round ≡ self.old.round }
        ensures acks { self.new.acks ≡ self.old.acks }
        ensures number { self.new.number ≡ self.old.number }
        ensures round { self.new.round ≡ self.old.round }
        ensures since { self.new.since ≡ known.now.since }
    {
        self.since = known.since;
    }

    /// The list of the acknowledgements.
    pub(crate) fn into_acks(self) -> UnratedAcks {
        self.acks
    }
}

//! What the caller of a run keeps from round to round.
ghost use Rattle.std.specs.Prelude.{◌≡◌, ◌+◌, [], None, map, option_to_list, slice_set, IfOk, OnOk};
ghost use Rattle.shared_rounds.specs.KnownFlows.{FlowRound, with_rounds_back};

use crate::course::Course;
use crate::known_flow::{KnownFlows, PassedPart};
use crate::order::Part;
use crate::round_acks::RoundAcks;
use ccp_base::NoMemory;
use shared_link::{Ask, SharedLink};
use std::alloc::Global;
use std::sync::Wait;

/// The link of a run, and what its caller knows of the flows.
#[derive(Drop)]
pub(crate) struct Desk<C: Course> {
    pub(crate) link: SharedLink,
    /// What is known of the flows, in order.
    pub(crate) known: KnownFlows<C>,
    /// What the flows ask the link for, in order.
    pub(crate) asks: Vec<Ask>,
}

impl<C: Course> Desk<C> {
    /// The desk before the first round.
    pub(crate) fn new(alloc: Global, link: SharedLink, known: KnownFlows<C>) -> Self
        ensures link { result.link ≡ link }
        ensures known { result.known ≡ known }
    {
        Desk {
            link,
            known,
            asks: Vec::new(alloc),
        }
    }

    /// Gives the link the list of a flow's acknowledgements back.
    pub(crate) fn give_back(&mut self, acks: RoundAcks<C>)
        ensures link { self.new.link ≡ self.old.link }
        ensures known { self.new.known ≡ self.old.known }
    {
        self.link.give_back(acks.number, acks.into_acks());
    }

    /// Gives the link the lists of parts back, and leaves no part. The list of the parts keeps its memory.
    pub(crate) fn give_back_all(&mut self, parts: &mut Vec<Part<C>>)
        ensures none { parts.new.items ≡ [] }
        ensures link { self.new.link ≡ self.old.link }
        ensures known { self.new.known ≡ self.old.known }
    {
        while let Some(part) = parts.pop() {
            self.give_back(part.acks);
        }
    }

    /// Gives the link the list of a part back, if there is a part, and leaves none.
    pub(crate) fn give_back_last(&mut self, last: &mut Option<Part<C>>)
        ensures none { last.new ≡ None }
        ensures link { self.new.link ≡ self.old.link }
        ensures known { self.new.known ≡ self.old.known }
    {
        if let Some(part) = last.take() {
            self.give_back(part.acks);
        }
    }

    /// Takes in parts that a thread did, the last one first, and leaves none. The list keeps its memory.
    pub(crate) fn take_in_all<R: Wait>(
        &mut self,
        rt: &R,
        parts: &mut Vec<Part<C>>,
    ) -> Result<(), NoMemory>
        ensures none { OnOk result (parts.new.items ≡ []) }
        ensures link { self.new.link ≡ self.old.link }
        ensures known { OnOk result (self.new.known ≡ with_rounds_back
            (map {B = FlowRound} (λ part. (part.acks.number, part.acks.round)) parts.old.items) self.old.known) }
    {
        while let Some(part) = parts.pop() {
            self.take_in(rt, part)?;
        }
        Ok(())
    }

    /// Takes in a part that a thread did, if there is one, and leaves none.
    pub(crate) fn take_in_last<R: Wait>(
        &mut self,
        rt: &R,
        last: &mut Option<Part<C>>,
    ) -> Result<(), NoMemory>
        ensures none { last.new ≡ None }
        ensures link { self.new.link ≡ self.old.link }
        ensures known { OnOk result (self.new.known ≡ with_rounds_back
            (map {B = FlowRound} (λ part. (part.acks.number, part.acks.round)) (option_to_list last.old))
            self.old.known) }
    {
        match last.take() {
            Some(part) => self.take_in(rt, part),
            None => Ok(()),
        }
    }

    /// Takes in a part that a thread did: keeps what is known of its flow, and gives the link the list of its
    /// acknowledgements back.
    fn take_in<R: Wait>(&mut self, rt: &R, part: Part<C>) -> Result<(), NoMemory>
        ensures link { self.new.link ≡ self.old.link }
        ensures known { OnOk result (self.new.known
            ≡ slice_set self.old.known part.acks.number (part.acks.number, part.acks.round + 1)) }
    {
        let Part { acks, known } = part;
        let part = known_after(rt, &acks, known)?;
        self.known.keep_part(part);
        self.give_back(acks);
        Ok(())
    }
}

/// What is known of a flow after its part of a round, if a thread did that. The call waits forever if the part isn't done
/// or isn't that of this flow and this round: a message's type can't say that the thread did it.
fn known_after<C: Course, R: Wait>(
    rt: &R,
    acks: &RoundAcks<C>,
    known: Option<Result<PassedPart<C>, NoMemory>>,
) -> Result<PassedPart<C>, NoMemory>
    ensures number { IfOk result (λ part. part.flow.number ≡ acks.now.number) }
    ensures round { IfOk result (λ part. part.flow.round ≡ acks.now.round + 1) }
{
    if let Some(known) = known {
        let part = known?;
        if part.flow.is_at(acks.number, acks.round + 1) {
            return Ok(part);
        }
    }
    for _ in rt.forever() {}
    unreachable!()
}

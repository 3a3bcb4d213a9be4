//! A link that several flows share: a round takes what the flows ask for and gives their acknowledgements.
ghost use Rattle.std.specs.Prelude.{◌≡◌, ℕ, ◌+◌, ◌<◌, List, [], ◌∷◌, ◌++◌, length, IfOk, OnOk, OnErr};
ghost use Rattle.ccp_base.specs.Limits.{most_rounds};
ghost use Rattle.shared_link.specs.declared.round.Ask.{Ask};
ghost use Rattle.shared_link.specs.SharedLimits.{IsWithin};
ghost use Rattle.shared_link.specs.SharedRounds.{acks_after, counts_of};
ghost use Rattle.shared_link.specs.SharedStanding.{Stands};

use crate::flows::Flows;
use crate::reserving::clear_for;
use crate::round::{Ask, Counts};
use crate::sending::Sending;
use crate::shared_case::SharedCase;
use crate::unrated_ack::UnratedAcks;
use ccp_base::{NoMemory, Sequence};
use link_model::Chance;
use std::alloc::Global;
use std::marker::Model;

/// Acknowledgements of flows, in the order of the flows.
pub type AckLists = Sequence<UnratedAcks>;

/// A link that several flows share. It keeps no list of the rounds that it was given; contracts say for which lists it
/// stands.
#[derive(Drop)]
pub struct SharedLink {
    case: SharedCase,
    flows: Flows,
    /// The chance after the last one that a packet got.
    next: Chance,
    rounds: u32,
    /// The place in the trace at which the next search looks first.
    near: usize,
}

impl Model for SharedLink {
    ghost use Rattle.shared_link.specs.SharedStanding.{SharedState};
    ghost use Rattle.shared_link.specs.Kept.{link_state, IsLinkKept};

    ghost Value = { SharedState };

    ghost view = { λ l. link_state l.case l.rounds l.next l.flows.traffic.items };

    ghost invariant = { λ l. IsLinkKept l.case l.rounds l.next l.flows.traffic.items };
}

impl SharedLink {
    /// A link before its first round. Reserves memory for 64 packets in flight of each flow, and 4 bytes a flow for the
    /// list of those that send; a round in which a flow may have more packets in flight reserves more.
    pub fn new(alloc: Global, case: SharedCase) -> Result<SharedLink, NoMemory>
        requires { IsWithin case }
        ensures case { IfOk result (λ link. link.case ≡ case) }
        ensures stands { IfOk result (λ link. Stands link []) }
        ensures rounds { IfOk result (λ link. link.rounds ≡ 0) }
    {
        let flows = Flows::new(alloc, &case)?;
        let near = case.trace.as_slice().len() - 1;
        Ok(SharedLink {
            case,
            flows,
            next: Chance { turn: 0, place: 0 },
            rounds: 0,
            near,
        })
    }

    /// Runs one more round, in which each flow has one of `asks`, in order: the flows send in turn, then what arrives
    /// within the round is acknowledged, then flows time out. Answers with each flow's acknowledgements, in order. A
    /// link has at most 10,000 rounds. If memory runs out, nothing changes.
    ///
    /// Before anything is sent, memory is reserved for the packets that each flow may have in flight, and for the most
    /// acknowledgements that it can get: as many as packets are in flight or may be, and no more than the flow has
    /// left.
    pub fn round(&mut self, alloc: Global, asks: &[Ask]) -> Result<AckLists, NoMemory>
        requires asks { length asks.now ≡ length self.old.case.flows }
        requires rounds { self.old.rounds < most_rounds }
        ensures acks { IfOk result (λ acks. (rounds : List (List Ask)) → Stands self.old rounds
            → acks ≡ acks_after self.old.case rounds asks.now) }
        ensures stands { OnOk result ((rounds : List (List Ask)) → Stands self.old rounds
            → Stands self.new (rounds ++ asks.now ∷ [])) }
        ensures case { self.new.case ≡ self.old.case }
        ensures rounds { OnOk result (self.new.rounds ≡ self.old.rounds + 1) }
        ensures unchanged { OnErr result (self.new ≡ self.old) }
    {
        let mut answers = Vec::new(alloc);
        self.round_into(alloc, asks, &mut answers)?;
        Ok(Sequence::from_vec(answers))
    }

    /// Runs one more round as `round` does, and puts each flow's acknowledgements, in order, into a list that the caller
    /// keeps from round to round. What the list had is dropped, also if memory runs out, and its memory is used again.
    pub fn round_into(
        &mut self,
        alloc: Global,
        asks: &[Ask],
        answers: &mut Vec<UnratedAcks>,
    ) -> Result<(), NoMemory>
        requires asks { length asks.now ≡ length self.old.case.flows }
        requires rounds { self.old.rounds < most_rounds }
        ensures acks { OnOk result ((rounds : List (List Ask)) → Stands self.old rounds
            → answers.new.items ≡ acks_after self.old.case rounds asks.now) }
        ensures stands { OnOk result ((rounds : List (List Ask)) → Stands self.old rounds
            → Stands self.new (rounds ++ asks.now ∷ [])) }
        ensures case { self.new.case ≡ self.old.case }
        ensures rounds { OnOk result (self.new.rounds ≡ self.old.rounds + 1) }
        ensures unchanged { OnErr result (self.new ≡ self.old) }
    {
        clear_for(alloc, answers, asks.len())?;
        let now = u64::from(self.rounds) * self.case.quantum_us;
        self.flows
            .make_rooms(alloc, &self.case, asks, self.rounds, now)?;
        let mut sending = Sending::at(&self.case.trace, self.rounds, now, self.next, self.near);
        self.flows.send_all(&self.case, asks, &mut sending);
        let end = now + self.case.quantum_us;
        self.flows
            .answer_all(alloc, &self.case, asks, self.rounds, end, answers);
        self.next = sending.next;
        self.near = sending.queue.near;
        self.rounds += 1;
        Ok(())
    }

    /// Takes back a list that `round` gave a flow, whose memory serves the flow's next list. The link is as before.
    pub fn give_back(&mut self, flow: u32, list: UnratedAcks)
        ensures unchanged { self.new ≡ self.old }
    {
        let flow = flow as usize;
        if flow < self.flows.traffic.len() {
            self.flows.keep_list(&self.case, self.rounds, flow, list);
        }
    }

    /// Counts the packets of all flows: those sent, acknowledged, lost and in flight.
    pub fn counts(&self) -> Counts
        ensures { (rounds : List (List Ask)) → Stands self.now rounds → result ≡ counts_of self.now.case rounds }
    {
        self.flows.counts(&self.case, self.rounds)
    }
}

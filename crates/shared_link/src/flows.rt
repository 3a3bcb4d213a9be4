//! The traffic of all flows: they send in turn and get their acknowledgements in order, and their packets are counted.
ghost use Rattle.std.specs.Prelude.{◌≡◌, ◌≢◌, ℕ, ◌+◌, ◌*◌, ◌^◌, ◌<◌, ◌≤◌, [], length, map, get_or, vec_capacity, if◌then◌else◌, IfOk, OnOk, IsTrue, IsFalse};
ghost use Rattle.ccp_base.specs.Limits.{most_flight, most_flows, most_rounds, most_quantum_us};
ghost use Rattle.link_model.specs.Traces.{IsTrace};
ghost use Rattle.shared_link.specs.SharedLimits.{IsWithin};
ghost use Rattle.shared_link.specs.SharedRounds.{flow_link_at, ask_at, allowed};
ghost use Rattle.shared_link.specs.Kept.{flow_under_way, IsSending, FlowsFollow, AreReady, ArePrepared};
ghost use Rattle.shared_link.specs.KeptFlows.{MaySend, HasEnough, AreLacking, ListsLacking, TellsCounts, SendsOne, SendsTurn, SendsAll};
ghost use Rattle.shared_link.specs.KeptFlows.{IsReadyAt, HasRoomAt, HaveRoom, AreOthersKept, AnswersAt, AnswersAll};

use crate::flow_sending::PACKETS;
use crate::flow_traffic::FlowTraffic;
use crate::reserving::clear_for;
use crate::round::{Ask, Counts};
use crate::sending::Sending;
use crate::shared_case::{FlowLink, SharedCase};
use crate::unrated_ack::UnratedAcks;
use ccp_base::NoMemory;
use link_model::allowance;
use std::alloc::{AllocError, Global};

/// What a flow has of its own.
pub(crate) fn link_of(case: &SharedCase, flow: usize) -> &FlowLink
    requires { flow < length case.now.flows }
    ensures { result.now ≡ flow_link_at case.now flow }
{
    &case.flows.as_slice()[flow]
}

/// What a flow asks for.
pub(crate) fn ask_of(asks: &[Ask], flow: usize) -> Ask
    requires { flow < length asks.now }
    ensures { result ≡ ask_at asks.now flow }
{
    asks[flow]
}

/// How many packets a flow may have in flight in the round at `now`, in microseconds.
fn allowance_of(case: &SharedCase, now: u64, asks: &[Ask], flow: usize) -> u64
    requires case { IsWithin case.now }
    requires flow { flow < length case.now.flows }
    requires asks { length asks.now ≡ length case.now.flows }
    ensures value { result ≡ allowed case.now now asks.now flow }
    ensures within { result ≤ most_flight }
{
    let ask = ask_of(asks, flow);
    let link = link_of(case, flow);
    if ask.left == 0 || now < link.start_us {
        return 0;
    }
    allowance(link.mss, ask.window)
}

/// Appends a flow to the list of those that have fewer packets in flight than they may have, if it is one of them.
fn list_if_lacking(lacking: &mut Vec<u32>, flows: &[FlowTraffic], flow: usize)
    requires few { flow < most_flows }
    requires flow { flow < length flows.now }
    requires room { length lacking.old.items < vec_capacity lacking.old }
    requires lacking { AreLacking flows.now flow lacking.old.items 0 0 (length lacking.old.items) }
    ensures lacking { AreLacking flows.now (flow + 1) lacking.new.items 0 0 (length lacking.new.items) }
    ensures count { length lacking.new.items ≤ length lacking.old.items + 1 }
    ensures capacity { vec_capacity lacking.new ≡ vec_capacity lacking.old }
{
    let traffic = &flows[flow];
    if traffic.in_flight >= traffic.allowance {
        return;
    }
    lacking.push_reserved(flow as u32);
}

/// Lists the flows that have fewer packets in flight than they may have, in order. Reserves memory if the list has too
/// little for all flows.
fn list_lacking(
    alloc: Global,
    lacking: &mut Vec<u32>,
    flows: &[FlowTraffic],
) -> Result<(), AllocError>
    requires { length flows.now ≤ most_flows }
    ensures { OnOk result (ListsLacking flows.now lacking.new.items) }
{
    clear_for(alloc, lacking, flows.len())?;
    let mut flow = 0;
    while flow < flows.len() {
        list_if_lacking(lacking, flows, flow);
        flow += 1;
    }
    Ok(())
}

// These three take the flows and the list as slices: a loop over them then has their places and numbers at hand, and
// doesn't read them again after each packet that is put into memory.
/// A flow that has fewer packets in flight than it may have sends one. Answers whether it still has fewer.
fn send_one(
    flows: &mut [FlowTraffic],
    case: &SharedCase,
    asks: &[Ask],
    sending: &mut Sending,
    flow: usize,
) -> bool
    requires case { IsWithin case.now }
    requires ready { AreReady case.now sending.old.rounds flows.old }
    requires prepared { ArePrepared case.now sending.old.now asks.now (length flows.old) flows.old }
    requires flow { flow < length flows.old }
    requires sending { IsSending case.now.trace sending.old }
    requires lacks { (other : FlowTraffic) → MaySend (get_or flows.old flow other) }
    ensures ready { AreReady case.now sending.new.rounds flows.new }
    ensures prepared { ArePrepared case.now sending.new.now asks.now (length flows.new) flows.new }
    ensures sending { IsSending case.now.trace sending.new }
    ensures rounds { sending.new.rounds ≡ sending.old.rounds }
    ensures now { sending.new.now ≡ sending.old.now }
    ensures count { length flows.new ≡ length flows.old }
    ensures others { (at : ℕ) (other : FlowTraffic) → at ≢ flow
        → get_or flows.new at other ≡ get_or flows.old at other }
    ensures follows { SendsOne case.now asks.now flow flows.old sending.old flows.new sending.new }
    ensures more { IsTrue result → (other : FlowTraffic) → MaySend (get_or flows.new flow other) }
    ensures enough { IsFalse result → (other : FlowTraffic) → HasEnough (get_or flows.new flow other) }
{
    // for the contract alone: what holds of the flows depends on what they ask for
    let _ = asks;
    let traffic = &mut flows[flow];
    traffic.send(link_of(case, flow), &case.trace, case.queue, sending);
    traffic.in_flight < traffic.allowance
}

/// One more than `count` if `more` holds.
#[inline(always)]
fn counted(count: usize, more: bool) -> usize
    requires { count + 1 < 2 ^ 64 }
    ensures { result ≡ (if more then count + 1 else count) }
{
    if more { count + 1 } else { count }
}

/// Each flow that has fewer packets in flight than it may have sends one, in turn. The list has these flows, in order,
/// at its first `count` places. Answers how many of them still have fewer: they are at its first places then.
fn send_turn(
    flows: &mut [FlowTraffic],
    case: &SharedCase,
    asks: &[Ask],
    sending: &mut Sending,
    lacking: &mut [u32],
    count: usize,
) -> usize
    requires case { IsWithin case.now }
    requires ready { AreReady case.now sending.old.rounds flows.old }
    requires prepared { ArePrepared case.now sending.old.now asks.now (length flows.old) flows.old }
    requires sending { IsSending case.now.trace sending.old }
    requires places { count ≤ length lacking.old }
    requires lacking { AreLacking flows.old (length flows.old) lacking.old 0 0 count }
    ensures ready { AreReady case.now sending.new.rounds flows.new }
    ensures prepared { ArePrepared case.now sending.new.now asks.now (length flows.new) flows.new }
    ensures sending { IsSending case.now.trace sending.new }
    ensures rounds { sending.new.rounds ≡ sending.old.rounds }
    ensures now { sending.new.now ≡ sending.old.now }
    ensures follows { SendsTurn case.now asks.now flows.old sending.old flows.new sending.new }
    ensures places { result ≤ length lacking.new }
    ensures lacking { AreLacking flows.new (length flows.new) lacking.new 0 0 result }
{
    let mut kept = 0;
    let mut place = 0;
    while place < count {
        let flow = lacking[place];
        let more = send_one(flows, case, asks, sending, flow as usize);
        lacking[kept] = flow;
        kept = counted(kept, more);
        place += 1;
    }
    kept
}

/// The flows send in turn until none has fewer packets in flight than it may have. The list has those that have fewer,
/// in order.
fn send_turns(
    flows: &mut [FlowTraffic],
    case: &SharedCase,
    asks: &[Ask],
    sending: &mut Sending,
    lacking: &mut [u32],
)
    requires case { IsWithin case.now }
    requires ready { AreReady case.now sending.old.rounds flows.old }
    requires prepared { ArePrepared case.now sending.old.now asks.now (length flows.old) flows.old }
    requires sending { IsSending case.now.trace sending.old }
    requires lacking { ListsLacking flows.old lacking.old }
    ensures ready { AreReady case.now sending.new.rounds flows.new }
    ensures prepared { ArePrepared case.now sending.new.now asks.now (length flows.new) flows.new }
    ensures sending { IsSending case.now.trace sending.new }
    ensures rounds { sending.new.rounds ≡ sending.old.rounds }
    ensures now { sending.new.now ≡ sending.old.now }
    ensures follows { SendsAll case.now asks.now flows.old sending.old flows.new sending.new }
{
    let mut count = lacking.len();
    let mut left = PACKETS;
    while left > 0 {
        if count == 0 {
            return;
        }
        count = send_turn(flows, case, asks, sending, lacking, count);
        left -= 1;
    }
}

/// What is under way of all flows, in order.
#[derive(Drop)]
pub(crate) struct Flows {
    pub(crate) traffic: Vec<FlowTraffic>,
    /// The flows that have fewer packets in flight than they may have as a round's sending begins, in order. It has
    /// room for all flows, and serves each round.
    lacking: Vec<u32>,
}

impl Flows {
    /// The flows send in turn until none has fewer packets in flight than it may have.
    pub(crate) fn send_all(&mut self, case: &SharedCase, asks: &[Ask], sending: &mut Sending)
        requires case { IsWithin case.now }
        requires ready { AreReady case.now sending.old.rounds self.old.traffic.items }
        requires prepared { ArePrepared case.now sending.old.now asks.now (length self.old.traffic.items)
            self.old.traffic.items }
        requires asks { length asks.now ≡ length case.now.flows }
        requires sending { IsSending case.now.trace sending.old }
        requires lacking { ListsLacking self.old.traffic.items self.old.lacking.items }
        ensures ready { AreReady case.now sending.new.rounds self.new.traffic.items }
        ensures prepared { ArePrepared case.now sending.new.now asks.now (length self.new.traffic.items)
            self.new.traffic.items }
        ensures sending { IsSending case.now.trace sending.new }
        ensures rounds { sending.new.rounds ≡ sending.old.rounds }
        ensures now { sending.new.now ≡ sending.old.now }
        ensures follows { SendsAll case.now asks.now self.old.traffic.items sending.old
            self.new.traffic.items sending.new }
    {
        let lacking = self.lacking.as_mut_slice();
        send_turns(self.traffic.as_mut_slice(), case, asks, sending, lacking);
    }

    /// The traffic of flows that have sent nothing. Reserves memory for the list of those that send, 4 bytes a flow.
    pub(crate) fn new(alloc: Global, case: &SharedCase) -> Result<Flows, NoMemory>
        ensures ready { IfOk result (λ flows. AreReady case.now 0 flows.traffic.items) }
        ensures follows { IfOk result (λ flows. FlowsFollow case.now flows.traffic.items [] (λ flow. [])) }
    {
        let mut traffic = Vec::new(alloc);
        let mut flow = 0;
        while flow < case.flows.len() {
            traffic.push(FlowTraffic::new(alloc)?)?;
            flow += 1;
        }
        let lacking = Vec::with_capacity(alloc, flow)?;
        Ok(Flows { traffic, lacking })
    }

    /// Begins the round at `now`, in microseconds: sets how many packets each flow may have in flight, reserves memory
    /// for them and for the most acknowledgements that it can get, and lists the flows that have fewer in flight.
    pub(crate) fn make_rooms(
        &mut self,
        alloc: Global,
        case: &SharedCase,
        asks: &[Ask],
        rounds: u32,
        now: u64,
    ) -> Result<(), NoMemory>
        requires case { IsWithin case.now }
        requires ready { AreReady case.now rounds self.old.traffic.items }
        requires asks { length asks.now ≡ length case.now.flows }
        ensures ready { AreReady case.now rounds self.new.traffic.items }
        ensures prepared { OnOk result
            (ArePrepared case.now now asks.now (length self.new.traffic.items) self.new.traffic.items) }
        ensures lacking { OnOk result (ListsLacking self.new.traffic.items self.new.lacking.items) }
        ensures same { map flow_under_way self.new.traffic.items ≡ map flow_under_way self.old.traffic.items }
    {
        // for the contract alone: what holds of the flows depends on the rounds so far
        let _ = rounds;
        let mut flow = 0;
        while flow < self.traffic.len() {
            let allowance = allowance_of(case, now, asks, flow);
            let left = ask_of(asks, flow).left;
            self.traffic[flow].make_room(alloc, link_of(case, flow), allowance, left)?;
            flow += 1;
        }
        list_lacking(alloc, &mut self.lacking, self.traffic.as_slice())?;
        Ok(())
    }

    /// Keeps the memory of a list that a flow was given.
    pub(crate) fn keep_list(
        &mut self,
        case: &SharedCase,
        rounds: u32,
        flow: usize,
        list: UnratedAcks,
    )
        requires ready { AreReady case.now rounds self.old.traffic.items }
        requires flow { flow < length self.old.traffic.items }
        ensures ready { AreReady case.now rounds self.new.traffic.items }
        ensures same { map flow_under_way self.new.traffic.items ≡ map flow_under_way self.old.traffic.items }
    {
        let _ = rounds;
        self.traffic[flow].keep_list(link_of(case, flow), list);
    }

    /// The acknowledgements of a flow before `end`, in microseconds.
    fn answer_one(
        &mut self,
        alloc: Global,
        case: &SharedCase,
        asks: &[Ask],
        rounds: u32,
        end: u64,
        flow: usize,
    ) -> UnratedAcks
        requires case { IsWithin case.now }
        requires asks { length asks.now ≡ length case.now.flows }
        requires count { length self.old.traffic.items ≡ length case.now.flows }
        requires flow { flow < length self.old.traffic.items }
        requires end { end ≤ most_rounds * most_quantum_us }
        requires rounds { rounds < most_rounds }
        requires ready { IsReadyAt case.now rounds self.old flow }
        requires room { HasRoomAt asks.now self.old flow }
        ensures ready { IsReadyAt case.now (rounds + 1) self.new flow }
        ensures count { length self.new.traffic.items ≡ length self.old.traffic.items }
        ensures others { AreOthersKept flow self.old self.new }
        ensures answered { AnswersAt case.now asks.now end flow self.old self.new result }
    {
        // for the contract alone: what holds of the flows depends on the rounds so far
        let _ = rounds;
        let link = link_of(case, flow);
        let left = ask_of(asks, flow).left;
        let traffic = &mut self.traffic[flow];
        traffic.answer(link, end, left);
        traffic.take_acks(alloc, link)
    }

    /// Puts each flow's acknowledgements before `end`, in microseconds, into `answers`, in the order of the flows.
    pub(crate) fn answer_all(
        &mut self,
        alloc: Global,
        case: &SharedCase,
        asks: &[Ask],
        rounds: u32,
        end: u64,
        answers: &mut Vec<UnratedAcks>,
    )
        requires valid { IsTrace case.now.trace }
        requires case { IsWithin case.now }
        requires asks { length asks.now ≡ length case.now.flows }
        requires ready { AreReady case.now rounds self.old.traffic.items }
        requires room { HaveRoom asks.now self.old }
        requires end { end ≤ most_rounds * most_quantum_us }
        requires rounds { rounds < most_rounds }
        requires none { answers.old.items ≡ [] }
        requires space { length asks.now ≤ vec_capacity answers.old }
        ensures ready { AreReady case.now (rounds + 1) self.new.traffic.items }
        ensures answered { AnswersAll case.now asks.now end self.old self.new answers.new.items }
    {
        let mut flow = 0;
        while flow < self.traffic.len() {
            let acks = self.answer_one(alloc, case, asks, rounds, end, flow);
            answers.push_reserved(acks);
            flow += 1;
        }
    }

    /// Counts the packets of all flows after `rounds` rounds.
    pub(crate) fn counts(&self, case: &SharedCase, rounds: u32) -> Counts
        requires case { IsWithin case.now }
        requires ready { AreReady case.now rounds self.now.traffic.items }
        requires rounds { rounds ≤ most_rounds }
        ensures { TellsCounts case.now rounds self.now result }
    {
        // for the contract alone: the definition counts the packets of the flows of a case
        let _ = case;
        let mut sent = 0;
        let mut acked = 0;
        let mut lost = 0;
        let mut inflight = 0;
        let mut flow = 0;
        while flow < self.traffic.len() {
            let traffic = &self.traffic[flow];
            sent += traffic.sent;
            acked += traffic.acked;
            lost += traffic.gone();
            inflight += traffic.in_flight;
            flow += 1;
        }
        Counts {
            rounds: u64::from(rounds),
            sent,
            acked,
            lost,
            inflight,
        }
    }
}

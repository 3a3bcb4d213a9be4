//! Laws: no chance serves two packets, each sent packet is acknowledged, lost or in flight, a round's sending ends, no
//! flow sends before its start, and acknowledgements come in the order of time.
ghost use Rattle.std.specs.Prelude.{◌≡◌, ℕ, List};
ghost use Rattle.shared_link.specs.declared.round.Ask.{Ask};
ghost use Rattle.shared_link.specs.SharedRounds.{flow_link_at, own_packets, shared_run_of};
ghost use Rattle.shared_link.specs.SharedLaws.{AreOnce, AddUp, NoneLacks, WaitsForStart, AreSentFrom, MaySendAtOnce, AreOverLinkTime, AreInOrder, AreSampled};

use crate::shared_case::SharedCase;

impl SharedCase {
    /// What holds after every list of rounds: no chance serves two packets, and each packet of a flow that was sent was
    /// acknowledged, left as lost, or is in flight.
    pub fn packets_law(&self)
        ensures once { (rounds : List (List Ask)) → AreOnce (shared_run_of self.now rounds) }
        ensures sum { (rounds : List (List Ask)) (flow : ℕ) → AddUp (shared_run_of self.now rounds) flow }
    {
        let _ = self.trace.as_slice();
    }

    /// What holds after every list of rounds and the sending of one more, whatever the flows ask for: no flow has fewer
    /// packets in flight than it may have. So the 4,096 turns of the definition are always enough.
    pub fn sending_law(&self)
        ensures { (rounds : List (List Ask)) (asks : List Ask)
            → NoneLacks self.now asks (shared_run_of self.now rounds) }
    {
        let _ = self.trace.as_slice();
    }

    /// What a flow's start changes. After every list of rounds, whatever the flows ask for, no flow sends a packet in
    /// one more round if the round's time is before the flow's start. So each packet was sent at its flow's start or
    /// later. A flow that starts at time 0 may have as many packets in flight as without a start, and its
    /// acknowledgements have the rates over the link's time.
    pub fn start_law(&self)
        ensures waits { (rounds : List (List Ask)) (asks : List Ask) (flow : ℕ)
            → WaitsForStart self.now asks (shared_run_of self.now rounds) flow }
        ensures sent { (rounds : List (List Ask)) (flow : ℕ) → AreSentFrom (flow_link_at self.now flow).start_us
            (own_packets flow (shared_run_of self.now rounds).sent) }
        ensures allowance { (now : ℕ) (asks : List Ask) (flow : ℕ) → MaySendAtOnce self.now now asks flow }
        ensures rates { (mss : ℕ) → AreOverLinkTime mss }
    {
        let _ = self.trace.as_slice();
    }

    /// What holds of the times of each flow's acknowledgements after every list of rounds: none comes before the one
    /// that was given before it. The round-trip sample of a packet is at least the flow's delay, and a timeout has the
    /// sample of the acknowledgement before it, 0 if there is none.
    pub fn order_law(&self)
        ensures order { (rounds : List (List Ask)) (flow : ℕ)
            → AreInOrder ((shared_run_of self.now rounds).givens flow) }
        ensures samples { (rounds : List (List Ask)) (flow : ℕ)
            → AreSampled (flow_link_at self.now flow).delay_us ((shared_run_of self.now rounds).givens flow) }
    {
        let _ = self.trace.as_slice();
    }
}

//! The virtual link of one flow: it takes a window and answers with the next acknowledgement.
ghost use Rattle.std.specs.Prelude.{◌≡◌, ◌+◌, ◌<◌, ◌≤◌, [], IfOk};
ghost use Rattle.ccp_base.specs.Limits.{most_acks};
ghost use Rattle.link_model.specs.Traces.{IsTrace};
ghost use Rattle.link_model.specs.Standing.{Stands, IsAnswer, StandsOn};
ghost use Rattle.link_model.specs.LinkMoves.{next_ack, next_standing};
ghost use Rattle.link_model.specs.Rated.{rated, IsRatedAnswer};

use crate::allowed::Allowed;
use crate::link_case::LinkCase;
use crate::traffic::Traffic;
use ccp_base::{Ack, NoMemory};
use std::alloc::Global;
use std::marker::Model;

/// A link. It keeps no list of the windows that it was given; contracts say for which lists it stands.
#[derive(Drop)]
pub struct Link {
    case: LinkCase,
    traffic: Traffic,
    allowed: Allowed,
}

impl Model for Link {
    ghost use Rattle.std.specs.Prelude.{◌≡◌};
    ghost use Rattle.link_model.specs.Link.{allowance};
    ghost use Rattle.link_model.specs.Standing.{LinkState};
    ghost use Rattle.link_model.specs.LinkMoves.{standing_in};
    ghost use Rattle.link_model.specs.Horizon.{IsKept, IsCounted};

    ghost Value = { LinkState };

    ghost view = { λ l. record { case = l.case; standing = standing_in l.case.trace l.traffic } };

    ghost invariant = { λ l. IsKept l.case l.traffic × IsCounted l.traffic
        × (l.allowed.packets ≡ allowance l.case l.allowed.window) };
}

impl Link {
    /// A link before its first call. Reserves memory for 4,096 packets in flight; later calls need no more.
    pub fn new(alloc: Global, case: LinkCase) -> Result<Link, NoMemory>
        ensures case { IfOk result (λ link. link.case ≡ case) }
        ensures stands { IfOk result (λ link. Stands link []) }
        ensures calls { IfOk result (λ link. link.standing.calls ≡ 0) }
    {
        let traffic = Traffic::new(alloc, &case)?;
        let allowed = Allowed::none(&case);
        Ok(Link {
            case,
            traffic,
            allowed,
        })
    }

    /// How many windows the link was given.
    pub fn calls(&self) -> u32
        ensures { result ≡ self.now.standing.calls }
    {
        self.traffic.calls
    }

    /// Sends the packets that `window`, in bytes, allows, and answers with the next acknowledgement. A link takes at
    /// most 65,536 calls.
    ///
    /// A call takes a turn for each packet that it serves or that is listed as lost; once the queue is full, one turn
    /// sends all packets that are left. A call also catches up on the chances of earlier packets that went by since the
    /// call before, and on the listed losses among packets that a full queue lost: one call may take a turn for each of
    /// them, but all calls together take at most one for each packet and one for each listed loss. A call searches the
    /// trace at most once, and only after an idle time.
    #[inline(always)]
    pub fn next(&mut self, window: u64) -> Ack
        requires { self.old.standing.calls < most_acks }
        ensures ack { IsAnswer self.old window result }
        ensures stands { StandsOn self.old window self.new }
        ensures case { self.new.case ≡ self.old.case }
        ensures calls { self.new.standing.calls ≡ self.old.standing.calls + 1 }
    {
        self.next_rated(window, true)
    }

    /// As `next`, but the two rates of the acknowledgement are computed only if `rates` is true, and are 0 otherwise:
    /// each takes a division.
    #[inline(always)]
    pub fn next_rated(&mut self, window: u64, rates: bool) -> Ack
        requires { self.old.standing.calls < most_acks }
        ensures ack { IsRatedAnswer rates self.old window result }
        ensures stands { StandsOn self.old window self.new }
        ensures case { self.new.case ≡ self.old.case }
        ensures calls { self.new.standing.calls ≡ self.old.standing.calls + 1 }
    {
        let mut ack = Ack::default();
        self.next_into(window, rates, &mut ack);
        ack
    }

    /// As `next_rated`, but the acknowledgement is written into `ack`, so that a caller can keep one place for all of
    /// its acknowledgements.
    #[inline(always)]
    pub fn next_into(&mut self, window: u64, rates: bool, ack: &mut Ack)
        requires { self.old.standing.calls < most_acks }
        ensures ack { IsRatedAnswer rates self.old window ack.new }
        ensures stands { StandsOn self.old window self.new }
        ensures case { self.new.case ≡ self.old.case }
        ensures calls { self.new.standing.calls ≡ self.old.standing.calls + 1 }
    {
        self.step(window, rates, ack);
    }

    #[inline(always)]
    fn step(&mut self, window: u64, rates: bool, ack: &mut Ack)
        requires { self.old.standing.calls < most_acks }
        ensures valid { IsTrace self.old.case.trace }
        ensures case { self.new.case ≡ self.old.case }
        ensures ack { ack.new ≡ rated rates (next_ack self.old.case window self.old.standing) }
        ensures standing { self.new.standing ≡ next_standing self.old.case window self.old.standing }
        ensures calls { self.new.standing.calls ≡ self.old.standing.calls + 1 }
    {
        let most = self.allowed.by(&self.case, window);
        let more = most.saturating_sub(self.traffic.in_flight);
        self.traffic.send(&self.case, more);
        self.traffic.acknowledge(&self.case, rates, ack);
    }
}

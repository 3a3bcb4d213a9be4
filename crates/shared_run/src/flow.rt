//! A flow on a shared link: its part of each round, the close at the end, and its book.
ghost use Rattle.std.specs.Prelude.{◌≡◌, true, [], ◌∷◌, length, OnOk, IfOk, IsOk};
ghost use Rattle.flow_core.specs.Readings.{over_codes};
ghost use Rattle.flow_core.specs.Words.{is_still};
ghost use Rattle.flow_core.specs.Cores.{CoreState, with_ack};
ghost use Rattle.campaign_core.specs.FlowRow.{world_of_core};
ghost use Rattle.campaign_core.specs.GivenFlows.{IsAfterHistory, Goes};
ghost use Rattle.shared_run.specs.RoundLetters.{answers_next, after_settling, round_part, closed_flow};
ghost use Rattle.shared_run.specs.SharedHistory.{ask_of};
ghost use Rattle.shared_run.specs.LiftedFlow.{FlowHoldsForSources};
ghost use Rattle.shared_run.specs.SharedBooks.{IsGivenOf};
ghost use Rattle.shared_run.specs.RoundFlows.{HasHistory, MayHear, Took, MakesNext};

use campaign_core::{GivenFlow, TalliedFlow, is_due};
use ccp_base::NoMemory;
use flow_core::{Core, Given};
use shared_link::{Ask, UnratedAck};
use std::alloc::Global;

/// What a flow asks the link for: its present congestion window, and the acknowledgements of its case that are left.
pub(crate) fn ask_of<F: GivenFlow>(flow: &TalliedFlow<F>) -> Ask
    ensures { (core : CoreState) → IsAfterHistory F.at core flow.now.flow flow.now.tally
        → result ≡ ask_of over_codes core }
{
    let bare = flow.bare();
    Ask {
        window: bare.cwnd(),
        left: bare.case().acks.saturating_sub(bare.acks()),
    }
}

/// A flow's part of a round: each of these acknowledgements, and what is taken and answered after it. If memory runs
/// out, no clause says which of its letters were made; without an acknowledgement it can't run out.
pub(crate) fn run_part<F: GivenFlow>(
    flow: &mut TalliedFlow<F>,
    alloc: Global,
    acks: &[UnratedAck],
) -> Result<(), NoMemory>
    requires { MayHear F.at acks.now flow.old.flow flow.old.tally }
    ensures part { OnOk result (Goes F.at (round_part over_codes acks.now)
        flow.old.flow flow.old.tally flow.new.flow flow.new.tally) }
    ensures nothing { length acks.now ≡ 0 → IsOk result }
{
    let mut left = acks;
    while let Some((ack, rest)) = left.split_first() {
        hear(flow, ack);
        settle_all(flow, alloc, false)?;
        left = rest;
    }
    Ok(())
}

/// The run's end: a flow takes and answers until nothing is out and nothing is left to take.
pub(crate) fn close<F: GivenFlow>(flow: &mut TalliedFlow<F>, alloc: Global) -> Result<(), NoMemory>
    requires { HasHistory F.at flow.old.flow flow.old.tally }
    ensures { OnOk result (Goes F.at (closed_flow over_codes)
        flow.old.flow flow.old.tally flow.new.flow flow.new.tally) }
{
    settle_all(flow, alloc, true)
}

/// Takes and answers until nothing comes next.
fn settle_all<F: GivenFlow>(
    flow: &mut TalliedFlow<F>,
    alloc: Global,
    at_end: bool,
) -> Result<(), NoMemory>
    requires { HasHistory F.at flow.old.flow flow.old.tally }
    ensures { OnOk result (Goes F.at (after_settling at_end over_codes)
        flow.old.flow flow.old.tally flow.new.flow flow.new.tally) }
{
    while turn(flow, alloc, at_end)? {}
    Ok(())
}

/// Makes the next letter that takes no acknowledgement, and says whether there is one.
fn turn<F: GivenFlow>(
    flow: &mut TalliedFlow<F>,
    alloc: Global,
    at_end: bool,
) -> Result<bool, NoMemory>
    requires { HasHistory F.at flow.old.flow flow.old.tally }
    ensures { IfOk result (λ made. MakesNext F.at at_end made
        flow.old.flow flow.old.tally flow.new.flow flow.new.tally) }
{
    if answers_next(flow, at_end) {
        flow.settle();
        return Ok(true);
    }
    take(flow, alloc)
}

/// Whether an answer comes next.
fn answers_next<F: GivenFlow>(flow: &TalliedFlow<F>, at_end: bool) -> bool
    ensures { (core : CoreState) → IsAfterHistory F.at core flow.now.flow flow.now.tally
        → result ≡ answers_next at_end over_codes core }
{
    let bare = flow.bare();
    if at_end { bare.has_out() } else { is_due(bare) }
}

/// Takes an acknowledgement, with its rates only if the flow gets them.
fn hear<F: GivenFlow>(flow: &mut TalliedFlow<F>, unrated: &UnratedAck)
    requires { MayHear F.at (unrated.now ∷ []) flow.old.flow flow.old.tally }
    ensures { Goes F.at (λ core. with_ack core unrated.entry.now)
        flow.old.flow flow.old.tally flow.new.flow flow.new.tally }
{
    if flow.flow.gets_rates() {
        hear_rated(flow, unrated);
        return;
    }
    flow.hear(unrated.without_rates());
}

/// Takes an acknowledgement with its rates. Few flows get them: this has no place in the loop over acknowledgements.
#[inline(never)]
fn hear_rated<F: GivenFlow>(flow: &mut TalliedFlow<F>, unrated: &UnratedAck)
    requires may { MayHear F.at (unrated.now ∷ []) flow.old.flow flow.old.tally }
    requires gets { F.gets flow.old.flow ≡ true }
    ensures { Goes F.at (λ core. with_ack core unrated.entry.now)
        flow.old.flow flow.old.tally flow.new.flow flow.new.tally }
{
    flow.hear(&unrated.ack());
}

/// Takes a ticket if that is legal, and says whether it did.
fn take<F: GivenFlow>(flow: &mut TalliedFlow<F>, alloc: Global) -> Result<bool, NoMemory>
    requires { HasHistory F.at flow.old.flow flow.old.tally }
    ensures { IfOk result (λ took. Took F.at took flow.old.flow flow.old.tally flow.new.flow flow.new.tally) }
{
    if !flow.bare().may_take() {
        return Ok(false);
    }
    flow.take(alloc)?;
    Ok(true)
}

/// A flow's book with its acknowledgements. No ticket may be out, and nothing may be left to take. For all programs that
/// the case's codes simulate, the flow does the same over these sources.
pub(crate) fn finish(flow: TalliedFlow<Core>) -> Given
    requires { is_still (world_of_core over_codes flow.flow) ≡ true }
    ensures given { IsGivenOf flow.flow result }
    ensures lifted { FlowHoldsForSources flow.flow.case }
{
    flow.flow.finish()
}

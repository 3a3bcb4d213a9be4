//! When an answer is due to the ticket that is out.
ghost use Rattle.std.specs.Prelude.{◌≡◌, ℕ};
ghost use Rattle.flow_core.specs.Readings.{over_codes};
ghost use Rattle.flow_core.specs.World.{World};
ghost use Rattle.flow_core.specs.Summaries.{summary};
ghost use Rattle.campaign_core.specs.CampaignWord.{is_answer_due};
ghost use Rattle.campaign_core.specs.BareLetters.{is_due_in};

use flow_core::Bare;

/// Whether an answer is due to the ticket that is out, in each state of a flow that the bare flow is the summary of.
#[inline]
pub fn is_due(bare: &Bare) -> bool
    ensures kept { result ≡ is_due_in bare.now }
    ensures due { (w : World ℕ) → bare.now.summary ≡ summary (over_codes bare.now.case) w
        → result ≡ is_answer_due (over_codes bare.now.case) bare.now.case.lag w }
{
    let acks = bare.acks();
    let case = bare.case();
    match bare.taken() {
        None => false,
        Some(taken) => {
            acks >= case.acks || u64::from(taken) + u64::from(case.lag) <= u64::from(acks)
        }
    }
}

//! The run of a case along its campaign word: its flow on the way, and the link that gives it its acknowledgements.
ghost use Rattle.std.specs.Prelude.{◌≡◌, IfOk, OnOk};
ghost use Rattle.campaign_core.specs.GivenFlows.{IsAfterHistory};
ghost use Rattle.campaign_gate.specs.CaseRuns.{core_of_case, next_in, IsOnWay, IsNextLetter, Onward};

use campaign_core::{GivenFlow, TalliedFlow, is_due};
use ccp_base::{Ack, NoMemory};
use flow_core::{Bare, Case, Letter};
use link_model::Link;
use std::alloc::Global;

/// The next letter of the campaign word, None at its end.
#[inline(always)]
fn next_letter(bare: &Bare) -> Option<Letter>
    ensures { result ≡ next_in bare.now }
{
    if is_due(bare) {
        return Some(Letter::C);
    }
    if bare.may_take() {
        return Some(Letter::T);
    }
    if bare.acks() < bare.case().acks {
        return Some(Letter::A);
    }
    None
}

/// A flow on the way along its campaign word, with its link.
#[derive(Drop)]
struct CaseRun<F: GivenFlow> {
    flow: TalliedFlow<F>,
    link: Link,
    /// The last acknowledgement: one place for all of them, which the link writes and the flow reads.
    ack: Ack,
}

impl<F: GivenFlow> CaseRun<F> {
    /// The run of a case before its first letter.
    fn open(alloc: Global, case: Case) -> Result<CaseRun<F>, NoMemory>
        ensures on { IfOk result (λ run. IsOnWay F.at run.flow.flow run.flow.tally run.link) }
        ensures case { IfOk result (λ run. (F.bare_of run.flow.flow).case ≡ case) }
    {
        let flow = TalliedFlow::<F>::open(alloc, case)?;
        match flow.bare().case().open_link(alloc) {
            Ok(link) => Ok(CaseRun {
                flow,
                link,
                ack: Ack::default(),
            }),
            Err(error) => {
                drop(flow);
                Err(error)
            }
        }
    }

    /// Makes every letter that is left.
    fn complete(&mut self, alloc: Global) -> Result<(), NoMemory>
        requires { IsOnWay F.at self.old.flow.flow self.old.flow.tally self.old.link }
        ensures { OnOk result (IsAfterHistory F.at (core_of_case (F.bare_of self.old.flow.flow).case)
            self.new.flow.flow self.new.flow.tally) }
    {
        while let Some(letter) = next_letter(self.flow.bare()) {
            self.make(alloc, letter)?;
        }
        Ok(())
    }

    /// Makes this letter, which is the next one.
    #[inline(always)]
    fn make(&mut self, alloc: Global, letter: Letter) -> Result<(), NoMemory>
        requires { IsNextLetter F.at self.old.flow.flow self.old.flow.tally self.old.link letter }
        ensures { OnOk result (Onward F.at F.bare_of self.old.flow.flow
            self.new.flow.flow self.new.flow.tally self.new.link) }
    {
        match letter {
            Letter::A => {
                self.hear();
                Ok(())
            }
            Letter::T => self.flow.take(alloc),
            Letter::C => {
                self.flow.settle();
                Ok(())
            }
        }
    }

    /// Takes the link's next acknowledgement. The link computes its two rates only if the flow gets them.
    #[inline(always)]
    fn hear(&mut self)
        requires { IsNextLetter F.at self.old.flow.flow self.old.flow.tally self.old.link Letter.A }
        ensures { Onward F.at F.bare_of self.old.flow.flow self.new.flow.flow self.new.flow.tally self.new.link }
    {
        let window = self.flow.bare().cwnd();
        let rates = self.flow.flow.gets_rates();
        self.link.next_into(window, rates, &mut self.ack);
        self.flow.hear(&self.ack);
    }
}

/// The flow of a case after its campaign word, with its tally.
pub(crate) fn run_to_end<F: GivenFlow>(
    alloc: Global,
    case: Case,
) -> Result<TalliedFlow<F>, NoMemory>
    ensures { IfOk result (λ tallied. IsAfterHistory F.at (core_of_case case) tallied.flow tallied.tally) }
{
    let mut run = CaseRun::<F>::open(alloc, case)?;
    match run.complete(alloc) {
        Ok(()) => {
            let CaseRun { flow, link, .. } = run;
            drop(link);
            Ok(flow)
        }
        Err(error) => {
            drop(run);
            Err(error)
        }
    }
}

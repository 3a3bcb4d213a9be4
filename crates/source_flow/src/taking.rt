//! A report or a fault notice is taken as a ticket, and whether a letter may come.
ghost use Rattle.std.specs.Prelude.{◌≡◌, None, is_some, drop};
ghost use Rattle.std.specs.Bool.{OnTrue};
ghost use Rattle.flow_core.specs.declared.letter.Letter.TheVariants.{T};
ghost use Rattle.flow_lists.specs.Outbox.{next_told, notice_left};
ghost use Rattle.flow_core.specs.Words.{can_take, is_legal, is_complete};
ghost use Rattle.source_flow.specs.SourceStates.{flow_over_sources, IsSourceSound};
ghost use Rattle.source_flow.specs.SourceMoves.{Makes, Shows};
ghost use Rattle.source_flow.specs.SourceWalks.{IsPermitted};

use crate::source_case::SourceCase;
use crate::state::State;
use ccp_base::Told;
use flow_core::{Issued, Letter};

impl State {
    /// Whether a report waits or a notice is untold.
    fn can_take(&self) -> bool
        ensures { result ≡ is_some (next_told self.now.waiting.items self.now.untold) }
    {
        !self.waiting.is_empty() || self.untold.is_some()
    }

    /// Whether a letter is legal now.
    pub(crate) fn may_make(&self, source: &SourceCase<'_>, letter: Letter) -> bool
        ensures legal { Shows source.now self.now (λ w. is_legal (flow_over_sources source.now) w letter) result }
        ensures permitted { OnTrue result (IsPermitted source.now letter self.now) }
    {
        match letter {
            Letter::A => self.acks < source.case.acks,
            Letter::T => self.out.is_none() && self.can_take(),
            Letter::C => self.out.is_some(),
        }
    }

    /// Whether all acknowledgements are in, nothing can be taken and no ticket is out.
    pub(crate) fn is_complete(&self, source: &SourceCase<'_>) -> bool
        ensures { Shows source.now self.now (is_complete (flow_over_sources source.now)) result }
    {
        self.acks >= source.case.acks && self.out.is_none() && !self.can_take()
    }

    /// Takes out what the next ticket has.
    fn pop(&mut self) -> Option<Told>
        ensures told { result ≡ next_told self.old.waiting.items self.old.untold }
        ensures waiting { self.new.waiting.items ≡ drop 1 self.old.waiting.items }
        ensures untold { self.new.untold ≡ notice_left self.old.waiting.items self.old.untold }
        ensures frame { self.new ≡ record self.old { waiting = self.new.waiting; untold = self.new.untold } }
    {
        if let Some(report) = self.waiting.pop_front() {
            return Some(Told::Report(report));
        }
        let notice = self.untold.take()?;
        Some(Told::Fault(notice))
    }

    /// Takes the oldest report, or else the notice, as a ticket. No ticket may be out.
    pub(crate) fn take(&mut self, source: &SourceCase<'_>)
        requires sound { IsSourceSound source.now self.old }
        requires none_out { self.old.out ≡ None }
        ensures sound { IsSourceSound source.now self.new }
        ensures at { Makes source.now T self.old self.new }
    {
        let taken = self.acks;
        if let Some(told) = self.pop() {
            self.out = Some(Issued { told, taken });
        }
    }
}

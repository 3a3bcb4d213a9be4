//! A word, letter by letter, as long as each is legal.
ghost use Rattle.std.specs.Prelude.{IfOk, OnOk};
ghost use Rattle.flow_core.specs.LiveText.{account_of};
ghost use Rattle.source_flow.specs.SourceAccounts.{account_in, IsAccountAfter};
ghost use Rattle.source_flow.specs.SourceStates.{flow_over_sources, AreMatched, IsSourceSound};
ghost use Rattle.source_flow.specs.SourceMoves.{Makes, Shows};
ghost use Rattle.source_flow.specs.SourceWalks.{IsPermitted, IsWalked};

use crate::flow_account::FlowAccount;
use crate::source_case::SourceCase;
use crate::state::State;
use ccp_base::{NoMemory, Values};
use flow_core::Letter;
use report_lines::End;
use std::alloc::Global;

impl State {
    /// Makes a letter, which must be legal.
    fn make(
        &mut self,
        alloc: Global,
        source: &SourceCase<'_>,
        letter: Letter,
    ) -> Result<(), NoMemory>
        requires sound { IsSourceSound source.now self.old }
        requires legal { IsPermitted source.now letter self.old }
        ensures sound { OnOk result (IsSourceSound source.now self.new) }
        ensures at { OnOk result (Makes source.now letter self.old self.new) }
    {
        match letter {
            Letter::A => self.hear(source),
            Letter::T => {
                self.take(source);
                Ok(())
            }
            Letter::C => self.answer(alloc, source),
        }
    }

    /// The account of the flow.
    fn into_account(self, source: &SourceCase<'_>) -> FlowAccount
        requires { IsSourceSound source.now self }
        ensures { Shows source.now self (account_of (flow_over_sources source.now)) (account_in result) }
    {
        let end = End {
            acks: u64::from(self.acks),
            first: self.present.epoch.first,
            stopped: self.present.is_stopped,
            cwnd: self.present.env.cwnd,
            rate: self.present.env.rate,
            fields: Values::from_slice(self.present.env.fields.as_slice()),
        };
        FlowAccount {
            epochs: self.epochs,
            faults: self.faults,
            tickets: self.tickets,
            held: self.held,
            program: self.present.epoch.program,
            end,
        }
    }
}

// The state is dropped by calls, whose proof is the type's: a drop at each exit is proved anew.
/// The state after a word; None if and only if some letter isn't legal at its point.
fn walk(alloc: Global, source: &SourceCase<'_>, word: &[Letter]) -> Result<Option<State>, NoMemory>
    requires { AreMatched source.now }
    ensures { IfOk result (λ state. IsWalked source.now word.now state) }
{
    let mut state = State::open(alloc, source)?;
    for letter in word {
        if !state.may_make(source, *letter) {
            drop(state);
            return Ok(None);
        }
        match state.make(alloc, source, *letter) {
            Ok(()) => {}
            Err(error) => {
                drop(state);
                return Err(error);
            }
        }
    }
    Ok(Some(state))
}

/// The account of a word; None if and only if it isn't legal or isn't complete.
pub(crate) fn account_over(
    alloc: Global,
    source: &SourceCase<'_>,
    word: &[Letter],
) -> Result<Option<FlowAccount>, NoMemory>
    requires { AreMatched source.now }
    ensures { IfOk result (IsAccountAfter (flow_over_sources source.now) source.now.case.now.link word.now) }
{
    let Some(state) = walk(alloc, source, word)? else {
        return Ok(None);
    };
    if !state.is_complete(source) {
        return Ok(None);
    }
    Ok(Some(state.into_account(source)))
}

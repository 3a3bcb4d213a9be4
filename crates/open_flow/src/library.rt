//! A flow's library: `put` adds an entry to it, and `start` changes the flow to an entry's program.
ghost use Rattle.std.specs.Prelude.{◌≡◌, ◌+◌, ◌<◌, ◌≤◌, Some, option_copied, slice_get, length, ◌∷◌, [], ◌++◌};
ghost use Rattle.std.specs.Option.{ForSome};
ghost use Rattle.ccp_base.specs.Limits.{most_steps};
ghost use Rattle.open_flow.specs.BuiltTexts.{Answers};
ghost use Rattle.open_flow.specs.Entries.{built_at};
ghost use Rattle.open_flow.specs.OpenCells.{next_step};
ghost use Rattle.open_flow.specs.States.{next_from, first_accepted, accepted_from};
ghost use Rattle.open_flow.specs.States.{cell_of, IsOpen};

use crate::entry::Entry;
use crate::letter::OpenLetter;
use crate::state::State;
use ccp_base::{Fields, RunningEpoch};
use flow_core::EpochLine;
use reg_compiler::Built;

/// What was built of a step; None if and only if its entry isn't there or was refused.
pub fn built_at(entries: &[Entry], step: u32) -> Option<&Built>
    ensures { option_copied result ≡ built_at entries.now step }
{
    match entries.get(step as usize) {
        Some(entry) => entry.built(),
        None => None,
    }
}

/// The place of the first accepted one of these entries.
// for the prover: the goal of `position` stays open before a `?`
fn first_accepted(entries: &[Entry]) -> Option<usize>
    ensures place { result ≡ first_accepted entries.now }
    ensures within { ForSome result (λ place. place < length entries.now) }
{
    entries.iter().position(|entry| entry.is_accepted())
}

/// The step of the first accepted one of these entries, which are those from this step on.
fn accepted_from(from: u32, entries: &[Entry]) -> Option<u32>
    requires { from + length entries.now ≤ most_steps }
    ensures { result ≡ accepted_from from entries.now }
{
    let place = first_accepted(entries)?;
    Some(from + place as u32)
}

/// The first step that no change has looked at.
fn next_from(running: Option<RunningEpoch>) -> u32
    requires { next_from running ≤ most_steps }
    ensures { result ≡ next_from running }
{
    match running {
        Some(epoch) => epoch.program + 1,
        None => 0,
    }
}

impl State {
    /// The step of the first accepted entry that hasn't been started; None if and only if there is none.
    pub(crate) fn next_step(&self) -> Option<u32>
        requires { IsOpen self.now }
        ensures { result ≡ next_step (cell_of self.now) }
    {
        let from = next_from(self.running);
        accepted_from(from, &self.entries.as_slice()[from as usize..])
    }

    /// Changes the flow to the program of this step.
    pub(crate) fn start(&mut self, step: u32)
        requires open_state { IsOpen self.old }
        requires next { next_step (cell_of self.old) ≡ Some step }
        ensures open_state { IsOpen self.new }
        ensures case { self.new.case ≡ self.old.case }
        ensures entries { self.new.entries ≡ self.old.entries }
        ensures word { self.new.word.items ≡ self.old.word.items ++ OpenLetter.G ∷ [] }
    {
        let Some(built) = built_at(self.entries.as_slice(), step) else {
            unreachable!()
        };
        let Ok(()) = self.machine.start(&built.code, &Fields::new(), self.time) else {
            unreachable!()
        };
        let epoch = RunningEpoch::after(self.running, step, u64::from(self.acks));
        let line = EpochLine::of(&epoch, self.acks, self.machine.cwnd());
        self.epochs.push(line);
        self.running = Some(epoch);
        self.word.push(OpenLetter::G);
    }

    /// Puts an entry into the library.
    pub(crate) fn put(&mut self, entry: Entry)
        requires open_state { IsOpen self.old }
        requires step { entry.step ≡ length self.old.entries.items }
        requires text { slice_get self.old.case.steps entry.step ≡ Some entry.text }
        requires answers { Answers entry.text entry.answer }
        ensures open_state { IsOpen self.new }
        ensures case { self.new.case ≡ self.old.case }
        ensures entries { self.new.entries.items ≡ self.old.entries.items ++ entry ∷ [] }
        ensures word { self.new.word.items ≡ self.old.word.items ++ OpenLetter.I ∷ [] }
    {
        self.installed.push(self.acks);
        self.entries.push(entry);
        self.word.push(OpenLetter::I);
    }
}

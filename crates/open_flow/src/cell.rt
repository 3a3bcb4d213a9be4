//! A flow of a rollout: acknowledgements, installed entries and changes, each a letter of its word.
ghost use Rattle.std.specs.Prelude.{◌≡◌, ◌+◌, ◌<◌, ◌≤◌, ◌↔◌, ◌∷◌, [], ◌++◌, true, Some, None, slice_get, length, map};
ghost use Rattle.std.specs.Prelude.{IsTrue, IsOk, IsErr, IfOk, IfErr, OnOk, OnErr};
ghost use Rattle.ccp_base.specs.RunningEpochs.{first_in};
ghost use Rattle.open_flow.specs.OpenWords.{legal, is_complete};
ghost use Rattle.open_flow.specs.BuiltTexts.{Answers};
ghost use Rattle.open_flow.specs.Entries.{installed_of};
ghost use Rattle.open_flow.specs.OpenBooks.{IsOpenBookOf};
ghost use Rattle.open_flow.specs.OpenCells.{world_at, IsAfter, is_legal_at, HasAll, IsComplete, most_letters};
ghost use Rattle.open_flow.specs.OpenCells.{IsNextEntry, with_entry, AnswersAck, ran_at, next_step};

use crate::account::Account;
use crate::book::OpenBook;
use crate::entry::Entry;
use crate::letter::OpenLetter;
use crate::state::State;
use ccp_base::{Bytes, NoMemory, RunningEpoch, same_bytes};
use flow_core::Ended;
use fold_machine::{Acked, Steps};
use scene_members::OpenCase;
use std::alloc::Global;
use std::marker::{Brand, Model};
use std::sync::ledger::{Blank, Ledger};

/// The entry isn't the one that comes next, which is that of the step `want`. It is handed back.
#[derive(Drop)]
pub struct Late {
    pub entry: Entry,
    pub want: u32,
}

/// Each accepted entry has been started already.
#[derive(Clone, Copy, PartialEq, Eq)]
pub struct Nothing;

/// One flow of a rollout. Its state is that of its case after its word.
#[derive(Drop)]
pub struct OpenCell {
    state: State,
}

impl Model for OpenCell {
    ghost use Rattle.open_flow.specs.OpenCells.{OpenState};
    ghost use Rattle.portus_core.specs.contracts.program.Expr as expr;
    ghost use Rattle.std.specs.Coded.{codes};

    ghost Value = { OpenState };

    ghost coded = { Prim.hlevel (codes, expr.the_row.coded) };

    ghost view = { λ c. record { case = c.state.case; entries = c.state.entries.items; word = c.state.word.items } };

    ghost use Rattle.open_flow.specs.States.{IsOpen};

    ghost invariant = { λ c. IsOpen c.state };
}

/// Whether this is the text of the step with this number.
fn is_text_of(steps: &[Bytes], step: usize, text: &[u8]) -> bool
    ensures { IsTrue result ↔ (slice_get steps.now step ≡ Some text.now) }
{
    match steps.get(step) {
        Some(expected) => same_bytes(expected.as_slice(), text),
        None => false,
    }
}

/// The number of acknowledgements at which the unreported span begins, 0 before the first change.
fn first_in(running: Option<RunningEpoch>) -> u64
    ensures { result ≡ first_in running }
{
    match running {
        Some(epoch) => epoch.first,
        None => 0,
    }
}

impl OpenCell {
    /// A flow without a letter. The word, a report for each acknowledgement of the case, and for each step an entry,
    /// its number, an epoch and a fault are reserved here.
    pub fn new(alloc: Global, case: OpenCase) -> Result<OpenCell, NoMemory>
        ensures opened { IfOk result (λ cell. cell ≡ record { case = case; entries = []; word = [] }) }
    {
        let state = State::open(alloc, case)?;
        Ok(OpenCell { state })
    }

    /// Takes the link's next acknowledgement, which is only counted before the first change, and then run. Ended if and
    /// only if all acknowledgements are in; nothing changes then. None if and only if no change came yet. `steps`
    /// counts the instructions that are run.
    pub fn ack<L: Ledger>(&mut self, steps: &mut Steps<L>) -> Result<Option<Acked>, Ended>
        ensures ended { IsErr result ↔ HasAll self.old }
        ensures ok { OnOk result (self.new ≡ record self.old { word = self.old.word ++ OpenLetter.A ∷ [] }) }
        ensures within { OnOk result (length self.new.word ≤ most_letters self.new.case) }
        ensures world { OnOk result (IsAfter self.old OpenLetter.A self.new) }
        ensures acked { IfOk result (λ answer. AnswersAck self.old answer) }
        ensures steps { OnOk result (steps.new ≡ steps.old + ran_at self.old) }
        ensures unchanged { OnErr result (self.new ≡ self.old) }
        ensures idle { OnErr result (steps.new ≡ steps.old) }
    {
        if self.state.acks >= self.state.case.acks {
            return Err(Ended);
        }
        Ok(self.state.advance(steps))
    }

    /// As `ack`, without a count of the instructions.
    #[inline(always)]
    pub fn hear(&mut self) -> Result<Option<Acked>, Ended>
        ensures ended { IsErr result ↔ HasAll self.old }
        ensures ok { OnOk result (self.new ≡ record self.old { word = self.old.word ++ OpenLetter.A ∷ [] }) }
        ensures within { OnOk result (length self.new.word ≤ most_letters self.new.case) }
        ensures world { OnOk result (IsAfter self.old OpenLetter.A self.new) }
        ensures acked { IfOk result (λ answer. AnswersAck self.old answer) }
        ensures unchanged { OnErr result (self.new ≡ self.old) }
    {
        self.hear_in_ledger::<Brand>(Blank::new(1))
    }

    /// As `ack`, with a counter that nobody reads, which `blank` opens.
    #[inline(always)]
    fn hear_in_ledger<L: Ledger>(&mut self, blank: Blank) -> Result<Option<Acked>, Ended>
        requires ledger { (blank.name ≡ L.name) × (blank.parts ≡ L.parts) × (0 < blank.parts) }
        ensures ended { IsErr result ↔ HasAll self.old }
        ensures ok { OnOk result (self.new ≡ record self.old { word = self.old.word ++ OpenLetter.A ∷ [] }) }
        ensures within { OnOk result (length self.new.word ≤ most_letters self.new.case) }
        ensures world { OnOk result (IsAfter self.old OpenLetter.A self.new) }
        ensures acked { IfOk result (λ answer. AnswersAck self.old answer) }
        ensures unchanged { OnErr result (self.new ≡ self.old) }
    {
        let mut steps = Steps::<L>::new(blank);
        self.ack(&mut steps)
    }

    /// Installs an entry. Late if and only if its step isn't the number of entries so far or its text isn't the case's
    /// of that step; it is handed back then, and nothing changes.
    pub fn install(&mut self, entry: Entry) -> Result<(), Late>
        ensures installed { IsOk result ↔ IsNextEntry self.old entry }
        ensures ok { OnOk result (self.new ≡ with_entry self.old entry) }
        ensures within { OnOk result (length self.new.word ≤ most_letters self.new.case) }
        ensures world { OnOk result (IsAfter self.old OpenLetter.I self.new) }
        ensures late { IfErr result (λ late. (late.entry ≡ entry) × (late.want ≡ length self.old.entries)) }
        ensures unchanged { OnErr result (self.new ≡ self.old) }
    {
        let want = self.state.entries.len();
        if entry.step() as usize != want
            || !is_text_of(self.state.case.steps.as_slice(), want, entry.text())
        {
            let want = want as u32;
            return Err(Late { entry, want });
        }
        self.put(entry);
        Ok(())
    }

    /// Installs the entry, which is the next one.
    pub(crate) fn put(&mut self, entry: Entry)
        requires next { IsNextEntry self.old entry }
        requires answers { Answers entry.text entry.answer }
        ensures ok { self.new ≡ with_entry self.old entry }
        ensures within { length self.new.word ≤ most_letters self.new.case }
        ensures world { IsAfter self.old OpenLetter.I self.new }
    {
        self.state.put(entry);
    }

    /// Changes the flow to the program of the first accepted entry that hasn't been started, and returns its step.
    /// Nothing if and only if there is none; the flow doesn't change then.
    pub fn change(&mut self) -> Result<u32, Nothing>
        ensures nothing { IsErr result ↔ (next_step self.old ≡ None) }
        ensures ok { OnOk result (self.new ≡ record self.old { word = self.old.word ++ OpenLetter.G ∷ [] }) }
        ensures within { OnOk result (length self.new.word ≤ most_letters self.new.case) }
        ensures world { OnOk result (IsAfter self.old OpenLetter.G self.new) }
        ensures step { IfOk result (λ step. next_step self.old ≡ Some step) }
        ensures unchanged { OnErr result (self.new ≡ self.old) }
    {
        let Some(step) = self.state.next_step() else {
            return Err(Nothing);
        };
        self.state.start(step);
        Ok(step)
    }

    /// Whether all acknowledgements are in, all steps have entries, and each accepted entry has been started.
    pub fn is_complete(&self) -> bool
        ensures { result ≡ is_complete self.now.case (world_at self.now) }
    {
        if self.state.acks < self.state.case.acks
            || self.state.entries.len() < self.state.case.steps.len()
        {
            return false;
        }
        !self.can_change()
    }

    /// Whether there is an accepted entry that hasn't been started.
    pub fn can_change(&self) -> bool
        ensures { result ≡ is_legal_at self.now OpenLetter.G }
    {
        self.state.next_step().is_some()
    }

    /// How many acknowledgements are in.
    pub fn acks(&self) -> u32
        ensures { result ≡ length (world_at self.now).acks }
    {
        self.state.acks
    }

    /// The flow's library: the entries in the order of the steps. Each is what its step's text stands for.
    pub fn entries(&self) -> &[Entry]
        ensures entries { result.now ≡ self.now.entries }
        ensures world { map installed_of self.now.entries ≡ (world_at self.now).entries }
    {
        self.state.entries.as_slice()
    }

    /// The flow's case, for which each letter of the word is legal at its point. The word has at most one letter for
    /// each acknowledgement and two for each step.
    pub fn case(&self) -> &OpenCase
        ensures case { result.now ≡ self.now.case }
        ensures legal { legal self.now.case self.now.word ≡ true }
        ensures within { length self.now.word ≤ most_letters self.now.case }
    {
        &self.state.case
    }

    /// The flow's book. The word must be complete.
    pub fn finish(self) -> OpenBook
        requires { IsComplete self }
        ensures case { result.case ≡ self.case }
        ensures word { result.word ≡ self.word }
        ensures entries { result.entries ≡ self.entries }
        ensures legal { legal self.case self.word ≡ true }
        ensures book { IsOpenBookOf (world_at self) result }
    {
        let State {
            case,
            machine,
            running,
            acks,
            account,
            entries,
            installed,
            epochs,
            word,
            ..
        } = self.state;
        let Account { reports, faults } = account;
        OpenBook {
            case,
            word: word.into_sequence(),
            entries: entries.into_sequence(),
            installed: installed.into_sequence(),
            epochs: epochs.into_sequence(),
            reports: reports.into_sequence(),
            faults: faults.into_sequence(),
            acks,
            first: first_in(running),
            machine,
        }
    }
}

//! The entries of a flow's library: a step's text with its program and code, or with its refusal.
ghost use Rattle.std.specs.Prelude.{◌≡◌, ◌<◌, Some, false, length, slice_get, IfOk, option_copied, is_some};
ghost use Rattle.open_flow.specs.BuiltTexts.{was_built, is_no_memory, is_out_of_memory, Answers, IsEntry, built_of};

use ccp_base::{Bytes, NoMemory, Sequence};
use portus_build::{BuildFault, build};
use reg_compiler::Built;
use scene_members::OpenCase;
use std::alloc::Global;
use std::marker::Model;

/// What is installed: a step's text and what it is built into, a program with its code or the text's refusal.
#[derive(Drop)]
pub struct Entry {
    step: u32,
    text: Bytes,
    answer: Result<Built, BuildFault>,
}

impl Model for Entry {
    ghost use Rattle.open_flow.specs.BuiltTexts.{EntryState};
    ghost use Rattle.portus_core.specs.contracts.program.Expr as expr;
    ghost use Rattle.std.specs.Coded.{codes};

    ghost Value = { EntryState };

    ghost coded = { Prim.hlevel (codes, expr.the_row.coded) };

    ghost use Rattle.open_flow.specs.BuiltTexts.{IsEntry};

    ghost view = { λ e. record { step = e.step; text = e.text; answer = e.answer } };

    ghost invariant = { λ e. IsEntry e.text e.answer };
}

/// That memory ran out, if it did so outside the steps of building.
fn lack_of_memory(refusal: &BuildFault) -> Option<NoMemory>
    ensures { is_some result ≡ is_no_memory refusal.now }
{
    match refusal {
        BuildFault::Parse(_) => None,
        BuildFault::Scope(_) => None,
        BuildFault::Compile(_) => None,
        BuildFault::NoMemory(error) => Some(*error),
    }
}

/// What a text is built into.
fn build_answer(alloc: Global, text: &[u8]) -> Result<Result<Built, BuildFault>, NoMemory>
    ensures { IfOk result (λ answer. IsEntry text.now answer) }
{
    match build(alloc, text) {
        Ok(built) => Ok(Ok(built)),
        Err(refusal) => match lack_of_memory(&refusal) {
            Some(error) => Err(error),
            None => Ok(Err(refusal)),
        },
    }
}

/// The entry of a case's step.
pub fn entry_of(alloc: Global, case: &OpenCase, step: u32) -> Result<Entry, NoMemory>
    requires { step < length case.now.steps }
    ensures step { IfOk result (λ entry. entry.step ≡ step) }
    ensures text { IfOk result (λ entry. slice_get case.now.steps step ≡ Some entry.text) }
    ensures answers { IfOk result (λ entry. Answers entry.text entry.answer) }
{
    Entry::make(alloc, step, case.steps.as_slice()[step as usize].as_slice())
}

/// The library of a flow: its entries in the order in which they were installed.
pub type Entries = Sequence<Entry>;

impl Entry {
    /// Builds the text of a step.
    pub fn make(alloc: Global, step: u32, text: &[u8]) -> Result<Entry, NoMemory>
        ensures step { IfOk result (λ entry. entry.step ≡ step) }
        ensures text { IfOk result (λ entry. entry.text ≡ text.now) }
        ensures answers { IfOk result (λ entry. Answers entry.text entry.answer) }
    {
        // for the prover: the copy comes first, so that no exit drops an answer
        let copy = Sequence::from_vec(text.to_vec(alloc)?);
        let answer = build_answer(alloc, text)?;
        Ok(Entry {
            step,
            text: copy,
            answer,
        })
    }

    /// The number of the step.
    pub fn step(&self) -> u32
        ensures { result ≡ self.now.step }
    {
        self.step
    }

    /// The text that was built. What it stands for is the answer.
    pub fn text(&self) -> &[u8]
        ensures text { result.now ≡ self.now.text }
        ensures answers { Answers self.now.text self.now.answer }
    {
        self.text.as_slice()
    }

    /// What the text is built into: its program, which the text stands for, or its first refusal, which is never
    /// out of memory.
    pub fn answer(&self) -> &Result<Built, BuildFault>
        ensures answer { result.now ≡ self.now.answer }
        ensures answers { Answers self.now.text self.now.answer }
        ensures ruled { is_out_of_memory self.now.answer ≡ false }
    {
        &self.answer
    }

    /// The program with its code; None if and only if the text was refused.
    pub fn built(&self) -> Option<&Built>
        ensures { option_copied result ≡ built_of self.now.answer }
    {
        self.answer.as_ref().ok()
    }

    /// Whether the text is that of a program.
    pub fn is_accepted(&self) -> bool
        ensures { result ≡ was_built self.now.answer }
    {
        self.answer.is_ok()
    }
}

//! What a flow is to its table, its workers and the caller.

ghost use Rattle.std.specs.Prelude.{◌≡◌, ℕ, ◌<◌, ◌↔◌, true, false, IsTrue, IfOk, OnOk, OnErr};
ghost use Rattle.worker_desk.specs.declared.event.Heard.{Heard};

use ccp_base::NoMemory;
use std::alloc::Global;
use worker_desk::Heard;

/// A flow that workers share behind a lock, and that the caller completes when they are done.
pub trait LockedFlow: Drop {
    /// What a flow is made of.
    type Case: Drop;

    /// The result of a flow's history.
    type Book: Drop;

    // the case of a flow
    ghost case_of: { Self → Self.Case };

    // the number of a case's flow
    ghost number_of: { Self.Case → ℕ };

    // the case of a book
    ghost case_in: { Self.Book → Self.Case };

    // the flow of a case without a letter
    ghost fresh: { Self.Case → Self };

    // the flow whose history a book tells
    ghost flow_in: { Self.Book → Self };

    // the flow took its next acknowledgement, if one was left, and this is what it meant for a worker
    ghost HasHeard: { Self → Self → Heard → Type 0 };

    // nothing is left to do
    ghost IsDone: { Self → Type 0 };

    // something is left to do
    ghost IsLeft: { Self → Type 0 };

    // how many letters can come yet, at most
    ghost letters: { Self → ℕ };

    // the flow has got the letter that the caller makes next
    ghost HasNext: { Self → Self → Type 0 };

    // the book has a legal and complete word
    ghost IsWhole: { Self.Book → Type 0 };

    /// An equal case.
    fn copy(alloc: Global, case: &Self::Case) -> Result<Self::Case, NoMemory>
        ensures { IfOk result (λ copy. copy ≡ case.now) };

    /// A flow without a letter.
    fn open(alloc: Global, case: Self::Case) -> Result<Self, NoMemory>
        ensures case { IfOk result (λ flow. case_of flow ≡ case) }
        ensures fresh { IfOk result (λ flow. flow ≡ fresh case) };

    /// Whether the flow is of this case.
    fn is_of(&self, case: &Self::Case) -> bool
        ensures { IsTrue result ↔ (case_of self.now ≡ case.now) };

    /// The number of the flow.
    fn number(&self) -> u32
        ensures { result ≡ number_of (case_of self.now) };

    /// Takes the next acknowledgement, and gives what it means for a worker: Ended if and only if none is left; nothing
    /// changes then.
    fn hear(&mut self) -> Heard
        ensures case { case_of self.new ≡ case_of self.old }
        ensures heard { HasHeard self.old self.new result };

    /// Whether nothing is left to do.
    fn is_done(&self) -> bool
        ensures done { result ≡ true → IsDone self.now }
        ensures left { result ≡ false → IsLeft self.now };

    /// Makes the letter that the caller makes next.
    fn make_next(&mut self, alloc: Global) -> Result<(), NoMemory>
        requires { IsLeft self.old }
        ensures case { OnOk result (case_of self.new ≡ case_of self.old) }
        ensures fewer { OnOk result (letters self.new < letters self.old) }
        ensures next { OnOk result (HasNext self.old self.new) };

    /// The book of the flow.
    fn finish(self) -> Self::Book
        requires { IsDone self }
        ensures case { case_in result ≡ case_of self }
        ensures flow { flow_in result ≡ self }
        ensures whole { IsWhole result };
}

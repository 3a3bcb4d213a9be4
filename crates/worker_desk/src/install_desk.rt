//! The trait for an installer's desk: texts to build, the flows' locks, entries and changes.
ghost use Rattle.std.specs.Prelude.{◌≡◌, ℕ, ◌<◌, Bool, Option, Some, None, option_map, is_some, IfSome};
ghost use Rattle.std.specs.Prelude.{[], ◌∷◌, length};
ghost use Rattle.worker_desk.specs.Logs.{Logs};
ghost use Rattle.worker_desk.specs.Equipping.{StepTask};
ghost use Rattle.worker_desk.specs.declared.event.Event.TheVariants.{Built, Installed, Changed};

use crate::lock_desk::LockDesk;

/// What an installer works on.
pub trait InstallDesk: LockDesk {
    /// What the texts of a flow are built from. A lock isn't `Copy`, so none is in it.
    type Source: Copy;

    /// What came of building a text.
    type Text: Drop;

    /// What the text of a step is built into.
    type Entry: Drop;

    // the flow that texts are built for
    ghost flow_from: { Self.Source → ℕ };

    // how much had been done here when a source was given, if the desk keeps that
    ghost given_at: { Self.Source → Option ℕ };

    // the flow and the step of a text
    ghost task_of: { Self.Text → StepTask };

    // when the source of a text was given
    ghost source_at: { Self.Text → Option ℕ };

    // the source is that of this flow's texts
    ghost IsOf: { Self → Self.Source → ℕ → Type 0 } = { λ desk source flow. Unit {0} };

    // what came of building the text of a step from a source
    ghost HasBuilt: { Self.Source → ℕ → Self.Text → Type 0 } = { λ source step text. Unit {0} };

    // the entry is that of a text
    ghost IsEntryOf: { Self.Text → Self.Entry → Type 0 } = { λ text entry. Unit {0} };

    // the step of an entry
    ghost step_of: { Self.Entry → ℕ };

    // what an entry made of the flow whose lock is held, and whether it was the next one
    ghost HasInstalled: { Self → Self → Self.Entry → Bool → Type 0 } = { λ old new entry is_next. Unit {0} };

    // what a change made of that flow, and whether there was one
    ghost HasChanged: { Self → Self → Bool → Type 0 } = { λ old new changed. Unit {0} };

    /// What the texts of a flow are built from.
    fn source(&self, flow: u32) -> Self::Source
        requires flow { flow < Self.flows self.now }
        requires free { Self.held self.now ≡ None }
        ensures flow { flow_from result ≡ flow }
        ensures of { IsOf self.now result flow }
        ensures at { given_at result ≡ option_map length (Self.log self.now) };

    /// Builds the text of a step. It has no desk, so it can't take a lock.
    fn build(source: Self::Source, step: u32) -> Self::Text
        ensures task { task_of result ≡ record { flow = flow_from source; step = step } }
        ensures built { HasBuilt source step result }
        ensures at { source_at result ≡ given_at source };

    /// The entry of a text; None if the flow has no such step, or memory ran out. Nothing was done since the text's
    /// source was given, so the text was built while no lock was held.
    fn take_entry(&mut self, text: Self::Text) -> Option<Self::Entry>
        requires free { Self.held self.old ≡ None }
        requires since { source_at text ≡ option_map length (Self.log self.old) }
        ensures log { Logs (Self.log self.old) (Self.log self.new)
            (Built (task_of text).flow (task_of text).step (is_some result) ∷ []) }
        ensures step { IfSome result (λ entry. step_of entry ≡ (task_of text).step) }
        ensures entry { IfSome result (IsEntryOf text) }
        ensures held { Self.held self.new ≡ Self.held self.old }
        ensures flows { Self.flows self.new ≡ Self.flows self.old };

    /// Puts an entry into the library of the flow whose lock is held, and says whether it was the next one.
    fn install(&mut self, flow: u32, entry: Self::Entry) -> bool
        requires { Self.held self.old ≡ Some flow }
        ensures log { Logs (Self.log self.old) (Self.log self.new) (Installed flow (step_of entry) result ∷ []) }
        ensures installed { HasInstalled self.old self.new entry result }
        ensures held { Self.held self.new ≡ Self.held self.old }
        ensures flows { Self.flows self.new ≡ Self.flows self.old };

    /// Changes the flow whose lock is held to its library's next program, and says whether there was one.
    fn change(&mut self, flow: u32) -> bool
        requires { Self.held self.old ≡ Some flow }
        ensures log { Logs (Self.log self.old) (Self.log self.new) (Changed flow result ∷ []) }
        ensures changed { HasChanged self.old self.new result }
        ensures held { Self.held self.new ≡ Self.held self.old }
        ensures flows { Self.flows self.new ≡ Self.flows self.old };
}

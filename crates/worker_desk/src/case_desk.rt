//! The traits for desks at which cases are run: with a gate, and, for a campaign's worker, with the number of cases.
ghost use Rattle.std.specs.Prelude.{◌≡◌, ℕ, ◌<◌, ◌≤◌, Option, List, [], ◌∷◌, ◌++◌, length, slice_get, option_to_list, OnOk};
ghost use Rattle.ccp_base.specs.Limits.{most_cases};
ghost use Rattle.worker_desk.specs.Logs.{Logs};
ghost use Rattle.worker_desk.specs.declared.event.CaseEvent.{CaseEvent};
ghost use Rattle.worker_desk.specs.declared.event.CaseEvent.TheVariants.{Passed, Ran};

use crate::event::CaseEvent;
use ccp_base::{NoMemory, Point};

/// What a worker works on that runs cases, each between two points of a gate. In a run of flows that share a link, a
/// case is a flow's part of a round, and its number is the flow's.
pub trait GatedDesk {
    /// What the run of a case makes.
    type Made;

    // what was done here, if the desk keeps that
    ghost log: { Self → Option (List CaseEvent) };

    // what the cases are to make, which neither a point nor a run changes
    ghost results: { Self → List Self.Made };

    // the results that the runs so far made, in their order
    ghost made: { Self → List Self.Made };

    // whether a desk with these results, which has made those, can run a case
    ghost CanRun: { List Self.Made → List Self.Made → ℕ → Type 0 };

    // of these results, those that the run of a case makes
    ghost results_of: { List Self.Made → ℕ → List Self.Made };

    /// Passes a point of the gate. The number is the case's.
    fn pass(&mut self, worker: u32, point: Point, case: u32)
        ensures log { Logs (log self.old) (log self.new) (Passed worker point case ∷ []) }
        ensures results { results self.new ≡ results self.old }
        ensures made { made self.new ≡ made self.old };

    /// Runs a case. If memory runs out, it has no result.
    fn run(&mut self, case: u32) -> Result<(), NoMemory>
        requires { CanRun (results self.old) (made self.old) case }
        ensures log { Logs (log self.old) (log self.new) (Ran case ∷ []) }
        ensures results { results self.new ≡ results self.old }
        ensures made { OnOk result (made self.new ≡ made self.old ++ results_of (results self.old) case) };
}

/// What a worker of a campaign works on. Its results are those of its cases, in their order.
pub trait CaseDesk: GatedDesk {
    /// How many cases there are, at most 1,024.
    fn case_count(&self) -> u32
        ensures count { result ≡ length (Self.results self.now) }
        ensures few { result ≤ most_cases }
        ensures cases { (made : List Self.Made) (case : ℕ) → case < result
            → Self.CanRun (Self.results self.now) made case }
        ensures each { (case : ℕ) → case < result
            → Self.results_of (Self.results self.now) case ≡ option_to_list (slice_get (Self.results self.now) case) };
}

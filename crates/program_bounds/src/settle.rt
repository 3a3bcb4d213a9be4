//! What an acknowledgement leaves: its report, and the ranges of what is kept.
ghost use Rattle.std.specs.Prelude.{◌≡◌, ℕ, ◌<◌, ◌≤◌, Bool, false, List, IsTrue, if◌then◌else◌, length, slice_index, slice_index_or};
ghost use Rattle.ccp_base.specs.declared.ack.Ack.{Ack};
ghost use Rattle.value_ranges.specs.declared.range.Range.{Range};
ghost use Rattle.value_ranges.specs.Ranges.{IsIn};
ghost use Rattle.portus_core.specs.declared.env.Env.{Env};
ghost use Rattle.portus_core.specs.Command.{Going};
ghost use Rattle.portus_core.specs.ProgramForm.{form_of};
ghost use Rattle.portus_core.specs.OneAcknowledgement.{IsEnvOf, reset, reset_of, answered};
ghost use Rattle.range_cases.specs.Cases.{AreIn, IsKept, IsCase, IsAmong};
ghost use Rattle.program_bounds.specs.Bounded.{ShowsIn};
ghost use Rattle.program_bounds.specs.Turns.{IsSettled, IsWithin, KeepsReport};

use portus_core::{Decl, Program};
use range_cases::{Case, Kept};
use value_ranges::Range;

/// Widens the next ranges by all that the ends leave, and the ranges at a report by their reports.
pub fn settle(
    program: &Program,
    ends: &[Case],
    has_room: bool,
    next: &mut Kept,
    report: &mut Option<Kept>,
)
    requires fields { length program.now.fields.items ≤ 64 }
    requires controls { length program.now.controls.items ≤ 64 }
    ensures settled { (ack : Ack) (going : Going) (room : Bool) → IsAmong ends.now ack going
        → IsEnvOf (form_of program.now) going.env → (IsTrue has_room → IsTrue room)
        → IsSettled report.new next.new (answered (form_of program.now) going.asked room going.env) }
    ensures within { IsWithin next.old next.new }
    ensures keeps { KeepsReport report.old report.new }
{
    let mut left = ends;
    while let Some((case, rest)) = left.split_first() {
        settle_case(program, case, has_room, next, report);
        left = rest;
    }
}

/// Widens the next ranges by what an end leaves, and the ranges at a report by its report.
#[tactic(auto, using(crate::proofs::SettleLemmas::settles))]
fn settle_case(
    program: &Program,
    case: &Case,
    has_room: bool,
    next: &mut Kept,
    report: &mut Option<Kept>,
)
    requires fields { length program.now.fields.items ≤ 64 }
    requires controls { length program.now.controls.items ≤ 64 }
    ensures settled { (ack : Ack) (going : Going) (room : Bool) → IsCase case.now ack going
        → IsEnvOf (form_of program.now) going.env → (IsTrue has_room → IsTrue room)
        → IsSettled report.new next.new (answered (form_of program.now) going.asked room going.env) }
    ensures within { IsWithin next.old next.new }
    ensures keeps { KeepsReport report.old report.new }
{
    if !case.asked {
        next.widen(&case.kept);
        return;
    }
    show(&case.kept, report);
    hold(&case.kept, has_room, next);
    next.widen(&after_report(program, &case.kept));
}

/// Widens the next ranges by what a report that is held leaves, unless there is always room.
fn hold(kept: &Kept, has_room: bool, next: &mut Kept)
    ensures held { has_room ≡ false → (env : Env) → IsKept kept.now env → IsKept next.new env }
    ensures within { IsWithin next.old next.new }
{
    if !has_room {
        next.widen(kept);
    }
}

/// Widens the ranges at a report.
fn show(kept: &Kept, report: &mut Option<Kept>)
    ensures shown { (env : Env) → IsKept kept.now env → ShowsIn report.new env.fields env.cwnd env.rate }
    ensures keeps { KeepsReport report.old report.new }
{
    match report {
        None => *report = Some(*kept),
        Some(shown) => shown.widen(kept),
    }
}

/// The ranges after a report: each volatile name has its declared value again.
fn after_report(program: &Program, kept: &Kept) -> Kept
    requires fields { length program.now.fields.items ≤ 64 }
    requires controls { length program.now.controls.items ≤ 64 }
    ensures { (env : Env) → IsEnvOf (form_of program.now) env → IsKept kept.now env
        → IsKept result (reset_of (form_of program.now) env) }
{
    let mut next = *kept;
    reset(&program.fields, &mut next.fields);
    reset(&program.controls, &mut next.controls);
    next
}

/// Gives each volatile name its declared value again.
fn reset(decls: &[Decl], ranges: &mut [Range])
    requires { length decls.now ≤ length ranges.old }
    ensures { (values : List ℕ) → length values ≡ length decls.now → AreIn ranges.old (slice_index values)
        → AreIn ranges.new (slice_index (reset decls.now values)) }
{
    for (i, decl) in decls.iter().enumerate() {
        reset_at(ranges, i, decl);
    }
}

/// Gives a name its declared value again, if it is volatile.
#[tactic(auto, using(crate::proofs::ResetLemmas::sets))]
fn reset_at(ranges: &mut [Range], i: usize, decl: &Decl)
    requires { i < length ranges.old }
    ensures long { length ranges.new ≡ length ranges.old }
    ensures own { (past : Range) (n : ℕ) → IsIn (slice_index_or ranges.old i past) n
        → IsIn (slice_index_or ranges.new i past) (if decl.now.volatile then decl.now.start else n) }
    ensures others { (j : ℕ) (past : Range) → (j ≡ i → ⊥)
        → slice_index_or ranges.new j past ≡ slice_index_or ranges.old j past }
{
    if decl.volatile {
        ranges[i] = Range::only(decl.start);
    }
}

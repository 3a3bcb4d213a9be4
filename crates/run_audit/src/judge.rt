//! The call `audit`: its verdict on a text as the live text of a scenario.
ghost use Rattle.std.specs.Prelude.{◌≡◌, ◌≤◌, ℕ, IfOk, length};
ghost use Rattle.std.specs.List.{All};
ghost use Rattle.ccp_base.specs.Limits.{most_flows};
ghost use Rattle.reg_compiler.specs.Sources.{sources_of};
ghost use Rattle.source_flow.specs.Sourced.{IsSourced};
ghost use Rattle.run_audit.specs.declared.verdict.Verdict.TheVariants.{Yes, No};
ghost use Rattle.run_audit.specs.Audit.{IsLiveText, IsNot, IsVerdict, IsVerdictOf};
ghost use Rattle.run_audit.specs.PartLeft.{verdict_on};

use crate::part::part_left;
use crate::verdict::Verdict;
use ccp_base::NoMemory;
use flow_core::Case;
use reg_compiler::Builts;
use scene_core::Scenario;
use std::alloc::Global;

/// Judges a text as the live text of a scenario, by the meaning of the programs' sources. The scenario has at most 64
/// cases, and each program that a case's roles name is among its programs, and that role's code simulates it.
pub fn audit(alloc: Global, scene: &Scenario, text: &[u8]) -> Result<Verdict, NoMemory>
    requires few { length scene.now.cases ≤ most_flows }
    requires sourced { All (IsSourced scene.now.programs) scene.now.cases }

    // The verdict is true of the text.
    ensures is { IfOk result (IsVerdict (sources_of scene.now.programs) scene.now.cases text.now) }

    // A live text gets Yes, and every other text gets No with its number.
    ensures yes { IsLiveText (sources_of scene.now.programs) scene.now.cases text.now → IsVerdictOf result Yes }
    ensures no { (count : ℕ) → IsNot (sources_of scene.now.programs) scene.now.cases text.now count
        → IsVerdictOf result (No count) }
{
    judge(alloc, &scene.programs, scene.cases.as_slice(), text)
}

/// The verdict on a text as the live text of cases, part by part.
fn judge(alloc: Global, programs: &Builts, cases: &[Case], text: &[u8]) -> Result<Verdict, NoMemory>
    requires few { length cases.now ≤ most_flows }
    requires sourced { All (IsSourced programs.now) cases.now }
    ensures { IfOk result (λ verdict. verdict ≡ verdict_on (sources_of programs.now) cases.now 0 text.now) }
{
    let mut left = text;
    let mut todo = cases;
    let mut flow = 0;
    while let Some((case, later)) = todo.split_first() {
        match part_left(alloc, programs, case, left)? {
            None => return Ok(Verdict::No(flow)),
            Some(rest) => left = rest,
        }
        todo = later;
        flow += 1;
    }
    if left.is_empty() {
        Ok(Verdict::Yes)
    } else {
        Ok(Verdict::No(flow))
    }
}

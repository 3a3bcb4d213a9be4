//! The mode `audit`: the verdict on a text as the live text of the scenario above it.
ghost use Rattle.std.specs.Prelude.{◌≡◌, ◌≤◌, [], IfOk, OnOk, ◌++◌, length};
ghost use Rattle.std.specs.List.{All};
ghost use Rattle.ccp_base.specs.Limits.{most_flows};
ghost use Rattle.scenario_json.specs.Cases.{IsCoded, AreNumberedFrom};
ghost use Rattle.reg_compiler.specs.Sources.{sources_of};
ghost use Rattle.run_audit.specs.Audit.{IsVerdict};
ghost use Rattle.ccp_run.specs.Attempts.{IsOutputOrRefusal};
ghost use Rattle.ccp_run.specs.AuditRuns.{verdict_text};
ghost use Rattle.ccp_run.specs.Modes.{Task};

use crate::scene::scene;
use ccp_base::{Bytes, NoMemory};
use ccp_words::Alone;
use fold_run::separate;
use run_audit::{Verdict, audit};
use run_ending::{Limit, ModeOutput, Refusal, Stop};
use scenario_json::{Scenario, SceneMode};
use std::alloc::Global;

/// The verdict on the text below the separator as the live text of the scenario above it, or the first refusal: of the
/// separator, of the length before it, of the scenario.
pub fn audit_output(alloc: Global, bytes: &[u8]) -> Result<ModeOutput, Stop>
    ensures { IsOutputOrRefusal (Task.Alone Alone.Audit) bytes.now result }
{
    let Some(cut) = separate(bytes) else {
        return Err(Stop::Refused(Refusal::NoSeparator));
    };
    if cut.program.len() > Limit::Input.bytes() {
        return Err(Stop::Refused(Refusal::TooLong(Limit::Input)));
    }
    let scene = scene(alloc, cut.program, SceneMode::Live)?;
    let verdict = judge(alloc, &scene, cut.rest);
    drop(scene);
    Ok(verdict_output(alloc, verdict?)?)
}

// A function of its own: it proves what `audit` requires, from clauses about the scenario alone.
/// The verdict on a text as the live text of a scenario.
fn judge(alloc: Global, scene: &Scenario, text: &[u8]) -> Result<Verdict, NoMemory>
    requires few { length scene.now.cases ≤ most_flows }
    requires numbered { AreNumberedFrom 0 scene.now.programs }
    requires coded { All (IsCoded scene.now.programs) scene.now.cases }
    ensures { IfOk result (IsVerdict (sources_of scene.now.programs) scene.now.cases text.now) }
{
    audit(alloc, scene, text)
}

/// The output that says it.
fn verdict_output(alloc: Global, verdict: Verdict) -> Result<ModeOutput, NoMemory>
    ensures text { IfOk result (λ output. output.text ≡ verdict_text verdict) }
    ensures books { IfOk result (λ output. output.books ≡ []) }
    ensures programs { IfOk result (λ output. output.programs ≡ []) }
    ensures ran { IfOk result (λ output. output.ran ≡ 0) }
{
    let mut text = Bytes::new(alloc);
    put_verdict(alloc, &mut text, verdict)?;
    Ok(ModeOutput::text(alloc, text))
}

fn put_verdict(alloc: Global, text: &mut Bytes, verdict: Verdict) -> Result<(), NoMemory>
    ensures { OnOk result (text.new ≡ text.old ++ verdict_text verdict) }
{
    match verdict {
        Verdict::Yes => text.extend(b"yes\n")?,
        Verdict::No(flow) => {
            let line = format!(in alloc; "no flow {flow}\n")?;
            text.extend(line.as_bytes())?;
        }
    }
    Ok(())
}

//! The scenario of an input's bytes, or the stop that refuses it.
ghost use Rattle.std.specs.Prelude.{◌≡◌, ◌≤◌, IfOk, IfErr, length};
ghost use Rattle.scene_core.specs.CompiledPrograms.{AreCompiled};
ghost use Rattle.scenario_json.specs.Cases.{case_names, AreNumberedFrom};
ghost use Rattle.scene_members.specs.Whole.{most_cases_of};
ghost use Rattle.ccp_run.specs.Scenes.{IsScenario, StopsScene};

use run_ending::Stop;
use scenario_json::calls::scenario;
use scenario_json::{Scenario, SceneMode};
use std::alloc::Global;

/// The scenario that the bytes stand for.
#[tactic(auto, using(crate::proofs::ScenarioInputs::scene_stops))]
pub fn scene(alloc: Global, bytes: &[u8], mode: SceneMode) -> Result<Scenario, Stop>
    ensures found { IfOk result (λ s. IsScenario mode bytes.now s.programs s.cases) }
    ensures numbered { IfOk result (λ s. AreNumberedFrom 0 s.programs) }
    ensures compiled { IfOk result (λ s. AreCompiled s.programs) }
    ensures names { IfOk result (λ s. s.names ≡ case_names s.cases) }
    ensures few { IfOk result (λ s. length s.cases ≤ most_cases_of mode) }
    ensures err { IfErr result (StopsScene mode bytes.now) }
{
    Ok(scenario(alloc, bytes, mode)?)
}

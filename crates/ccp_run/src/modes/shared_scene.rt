//! What the modes over one link share: the scenario that they read, and the line of the link's packets.
ghost use Rattle.std.specs.Prelude.{◌≡◌, ◌≤◌, ◌++◌, OnOk, IfOk, IfErr, length, map};
ghost use Rattle.ccp_base.specs.Limits.{most_flows, most_rounds};
ghost use Rattle.scene_core.specs.CasePlans.{plan_of, flow_link_of, link_at_once};
ghost use Rattle.scenario_json.specs.Cases.{case_names, AreNumberedFrom};
ghost use Rattle.shared_link.specs.SharedLimits.{IsWithin};
ghost use Rattle.ccp_run.specs.Shared.{IsSharedScenario, StopsShared, link_line};

use ccp_base::{Bytes, NoMemory};
use run_ending::Stop;
use scenario_json::SharedScene;
use scenario_json::calls::shared_scene;
use shared_link::Counts;
use std::alloc::Global;

// A function of its own: the lemmas about the link and a scenario's fault are searched with here, not in the callers.
/// The scenario of flows on one link that the bytes stand for.
#[tactic(auto, using(crate::proofs::SharedLemmas::link_within, crate::proofs::ScenarioInputs::scene_stops))]
pub fn read_shared_scene(alloc: Global, bytes: &[u8]) -> Result<SharedScene, Stop>
    ensures found { IfOk result (λ s. IsSharedScenario bytes.now s.scene.programs s.scene.cases s.link s.rounds) }
    ensures numbered { IfOk result (λ s. AreNumberedFrom 0 s.scene.programs) }
    ensures names { IfOk result (λ s. s.scene.names ≡ case_names s.scene.cases) }
    ensures few { IfOk result (λ s. length s.scene.cases ≤ most_flows) }
    ensures link { IfOk result (λ s. IsWithin s.link) }
    ensures links { IfOk result (λ s. map link_at_once s.link.flows ≡ map flow_link_of (map plan_of s.scene.cases)) }
    ensures rounds { IfOk result (λ s. s.rounds ≤ most_rounds) }
    ensures err { IfErr result (StopsShared bytes.now) }
{
    Ok(shared_scene(alloc, bytes)?)
}

/// Appends the line of a link's packets to a text.
pub fn put_link_line(alloc: Global, text: &mut Bytes, counts: &Counts) -> Result<(), NoMemory>
    ensures { OnOk result (text.new ≡ text.old ++ link_line counts.now) }
{
    let line = format!(in alloc;
        "link rounds={} sent={} acked={} lost={} inflight={}\n",
        counts.rounds, counts.sent, counts.acked, counts.lost, counts.inflight
    )?;
    text.extend(line.as_bytes())?;
    Ok(())
}

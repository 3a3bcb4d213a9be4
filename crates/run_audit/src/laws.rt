//! A law: a text is the live text of at most one history of each flow.
ghost use Rattle.reg_compiler.specs.Sources.{sources_of};
ghost use Rattle.run_audit.specs.Audit.{HaveOneHistory};

use scene_core::Scenario;

/// A law: a text is the live text of one history of each flow at most, whatever follows it.
pub fn words_law(_scene: &Scenario)
    ensures { HaveOneHistory (sources_of _scene.now.programs) _scene.now.cases }
{}

//! The words that stand for agents.
ghost use Rattle.std.specs.Prelude.{◌≡◌, ℕ, List};

use agent_core::Agent;

/// What stands in an agent's place in the texts of flows.
pub trait Label {
    /// The word that is shown for it.
    ghost word: { Self → List ℕ };

    /// The word that is shown for it.
    fn label(&self) -> &'static str
        ensures { result.now ≡ word self.now };
}

/// An agent's word is the name of its kind.
impl Label for Agent {
    ghost use Rattle.flow_core.specs.LiveText.{agent_text};

    ghost word = { agent_text };

    fn label(&self) -> &'static str {
        self.name()
    }
}

/// An agent outside `ccp`: the user's own.
#[derive(Clone, Copy)]
pub struct Own;

impl Label for Own {
    ghost use Rattle.live_lines.specs.FlowLabels.{own};

    ghost word = { λ _. own };

    fn label(&self) -> &'static str {
        "own"
    }
}

//! What a scenario is read for, which bounds its number of cases and says which of their members are read.
ghost use Rattle.std.specs.Prelude.{◌≡◌};
ghost use Rattle.scene_members.specs.Whole.{most_cases_of};

/// What a scenario is read for.
#[derive(Clone, Copy)]
pub enum SceneMode {
    /// A live run: at most 64 cases, with at most 262,144 acknowledgements in all.
    Live,
    /// A campaign: at most 1,024 cases.
    Campaign,
    /// Flows over one link: the limits of a live run, and each case may say when its flow starts.
    Shared,
    /// Flows whose agent is outside: the limits of a live run, and cases have no agent and no programs.
    Driven,
}

impl SceneMode {
    /// The most cases of a scenario.
    pub(crate) fn most_cases(self) -> usize
        ensures { result ≡ most_cases_of self }
    {
        match self {
            SceneMode::Live | SceneMode::Shared | SceneMode::Driven => 64,
            SceneMode::Campaign => 1024,
        }
    }
}

//! Why a mode has no output: a refusal, a failed read, or no memory.
ghost use Rattle.ccp_base.specs.Outside.{no_memory};

use crate::refusal::Refusal;
use ccp_base::NoMemory;
use scene_faults::SceneFault;

/// Why a mode has no output.
#[derive(Drop)]
pub enum Stop {
    Refused(Refusal),
    ReadFailed,
    NoMemory(NoMemory),
}

impl From<NoMemory> for Stop {
    ghost use Rattle.std.specs.Prelude.{◌≡◌};
    ghost use Rattle.run_ending.specs.declared.stop.Stop.TheVariants as stop;

    ghost from_gives = { λ _ e. e ≡ stop.NoMemory no_memory };

    fn from(error: NoMemory) -> Stop {
        Stop::NoMemory(error)
    }
}

impl From<SceneFault> for Stop {
    ghost use Rattle.std.specs.Prelude.{◌≡◌};
    ghost use Rattle.run_ending.specs.SceneStops.{scene_stop};

    ghost from_gives = { λ fault stop. stop ≡ scene_stop fault };

    fn from(fault: SceneFault) -> Stop {
        match fault {
            SceneFault::NoMemory(error) => Stop::NoMemory(error),
            fault => Stop::Refused(Refusal::Scene(fault)),
        }
    }
}

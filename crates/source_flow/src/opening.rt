//! A flow before its first letter.
ghost use Rattle.std.specs.Prelude.{◌≡◌, ◌∷◌, [], IfOk};
ghost use Rattle.flow_core.specs.Books.{line_of};
ghost use Rattle.link_model.specs.Standing.{Stands};
ghost use Rattle.flow_core.specs.World.{opening};
ghost use Rattle.source_flow.specs.SourceStates.{flow_over_sources, AreMatched, IsAt, IsSourceSound};
ghost use Rattle.source_flow.specs.SourceWalks.{OpensWith};

use crate::settling::start_env;
use crate::source_case::SourceCase;
use crate::state::{Present, State};
use ccp_base::{NoMemory, RunningEpoch, Sequence};
use flow_core::EpochLine;
use link_model::Link;
use std::alloc::Global;
use std::collections::VecDeque;

/// The epoch that the agent's opening change starts.
fn opening_epoch(alloc: Global, source: &SourceCase<'_>) -> Result<Present, NoMemory>
    requires { AreMatched source.now }
    ensures { IfOk result (λ present. OpensWith source.now present) }
{
    let agent = &source.case.agent;
    let epoch = RunningEpoch::opening(agent.course().ss.number, 0);
    let values = agent.values(&agent.begin());
    let env = start_env(alloc, source.program(epoch.program), &values, 0, 0, 0)?;
    let spare = env.copy(alloc)?;
    Ok(Present {
        epoch,
        env,
        spare,
        is_stopped: false,
    })
}

/// The link of a case before its first window.
fn opening_link(alloc: Global, source: &SourceCase<'_>) -> Result<Link, NoMemory>
    ensures case { IfOk result (λ link. link.case ≡ source.now.case.now.link) }
    ensures stands { IfOk result (λ link. Stands link []) }
    ensures calls { IfOk result (λ link. link.standing.calls ≡ 0) }
{
    Link::new(alloc, source.case.link.copy(alloc)?)
}

/// The line of the epoch that the agent's opening change starts.
fn opening_lines(alloc: Global, present: &Present) -> Result<Sequence<EpochLine>, NoMemory>
    ensures { IfOk result (λ epochs. epochs ≡ line_of present.now.epoch 0 present.now.env.cwnd ∷ []) }
{
    let mut epochs = Sequence::new(alloc);
    epochs.push(EpochLine::of(&present.epoch, 0, present.env.cwnd))?;
    Ok(epochs)
}

impl State {
    /// The state of a flow that has no letter yet.
    pub(crate) fn open(alloc: Global, source: &SourceCase<'_>) -> Result<State, NoMemory>
        requires { AreMatched source.now }
        ensures sound { IfOk result (λ state. IsSourceSound source.now state) }
        ensures at { IfOk result (λ state.
            IsAt (flow_over_sources source.now) state (opening (flow_over_sources source.now))) }
    {
        let present = opening_epoch(alloc, source)?;
        let link = match opening_link(alloc, source) {
            Ok(link) => link,
            Err(error) => {
                drop(present);
                return Err(error);
            }
        };
        let epochs = match opening_lines(alloc, &present) {
            Ok(epochs) => epochs,
            Err(error) => {
                drop(present);
                drop(link);
                return Err(error);
            }
        };
        Ok(State {
            link,
            present,
            acks: 0,
            time: 0,
            waiting: VecDeque::new(alloc),
            untold: None,
            agent: source.case.agent,
            out: None,
            tickets: Sequence::new(alloc),
            epochs,
            faults: Sequence::new(alloc),
            held: 0,
        })
    }
}

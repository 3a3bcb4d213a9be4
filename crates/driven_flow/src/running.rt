//! A driven flow continues with an answer, to its next ticket or to its end.
ghost use Rattle.std.specs.Prelude.{◌≡◌, ◌≢◌, ◌<◌, ◌++◌, ◌∷◌, [], OnOk};
ghost use Rattle.driven_flow.specs.Driven.{MayMake, left_of};
ghost use Rattle.driven_flow.specs.Session.{after_one, run_on};
ghost use Rattle.driven_flow.specs.SessionHolds.{MayAnswer};

use crate::answer::Answer;
use crate::driven::DrivenFlow;
use ccp_base::NoMemory;
use flow_core::Letter;
use std::alloc::Global;

/// Makes the next letters of the flow's campaign word, until a ticket is taken or the word is complete. The ticket that
/// is out, if one is, gets this answer.
pub(crate) fn run_on(
    alloc: Global,
    flow: &mut DrivenFlow<'_>,
    answer: &Answer,
) -> Result<(), NoMemory>
    requires { MayAnswer flow.old answer.now }
    ensures ran { OnOk result (flow.new ≡ run_on answer.now flow.old) }
    ensures programs { flow.new.programs ≡ flow.old.programs }
{
    while let Some(letter) = flow.next_letter() {
        make(alloc, flow, answer, letter)?;
        if let Letter::T = letter {
            return Ok(());
        }
    }
    Ok(())
}

/// Makes a letter, which must be legal; where it is C, it applies this answer.
fn make(
    alloc: Global,
    flow: &mut DrivenFlow<'_>,
    answer: &Answer,
    letter: Letter,
) -> Result<(), NoMemory>
    requires may { MayMake flow.old letter }
    requires answers { MayAnswer flow.old answer.now }
    ensures made { OnOk result (flow.new ≡ after_one answer.now flow.old letter) }
    ensures fewer { OnOk result (left_of flow.new < left_of flow.old) }
    ensures answers { OnOk result (letter ≢ Letter.T → MayAnswer flow.new answer.now) }
    ensures programs { flow.new.programs ≡ flow.old.programs }
{
    match letter {
        Letter::A => flow.hear(alloc),
        Letter::T => take(alloc, flow),
        Letter::C => flow.settle(alloc, answer),
    }
}

/// Takes a ticket, which must be legal.
fn take(alloc: Global, flow: &mut DrivenFlow<'_>) -> Result<(), NoMemory>
    requires { MayMake flow.old Letter.T }
    ensures made { OnOk result (flow.new ≡ record flow.old { word = flow.old.word ++ Letter.T ∷ [] }) }
    ensures fewer { OnOk result (left_of flow.new < left_of flow.old) }
    ensures programs { flow.new.programs ≡ flow.old.programs }
{
    flow.take(alloc)?;
    Ok(())
}

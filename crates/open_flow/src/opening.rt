//! A flow before its first letter.
ghost use Rattle.std.specs.Prelude.{◌≡◌, ◌+◌, ◌*◌, ◌≤◌, [], IfOk};
ghost use Rattle.link_model.specs.Standing.{Stands};
ghost use Rattle.open_flow.specs.Openings.{IsOpening};
ghost use Rattle.open_flow.specs.States.{IsOpen};

use crate::account::Account;
use crate::entry::Entry;
use crate::letter::OpenLetter;
use crate::state::State;
use ccp_base::NoMemory;
use flow_core::{EpochLine, ReservedList};
use fold_machine::Machine;
use link_model::{Link, LinkCase};
use scene_members::OpenCase;
use std::alloc::Global;

/// A link of this case to which no window was given yet.
fn fresh_link(alloc: Global, case: &LinkCase) -> Result<Link, NoMemory>
    ensures case { IfOk result (λ link. link.case ≡ case.now) }
    ensures stands { IfOk result (λ link. Stands link []) }
    ensures calls { IfOk result (λ link. link.standing.calls ≡ 0) }
{
    let case = case.copy(alloc)?;
    Link::new(alloc, case)
}

/// No report and no fault, with room for a report of each acknowledgement and a fault of each step.
fn fresh_account(alloc: Global, acks: usize, steps: usize) -> Result<Account, NoMemory>
    ensures reports { IfOk result (λ account. (account.reports.items ≡ []) × (acks ≤ account.reports.room)) }
    ensures faults { IfOk result (λ account. (account.faults.items ≡ []) × (steps ≤ account.faults.room)) }
{
    let reports = ReservedList::with_room(alloc, acks)?;
    let faults = ReservedList::with_room(alloc, steps)?;
    Ok(Account { reports, faults })
}

/// Lists without an entry, a number of acknowledgements before one, an epoch or a letter, with room for one of each
/// step and for this many letters.
fn reserve_lists(
    alloc: Global,
    steps: usize,
    letters: usize,
) -> Result<
    (
        ReservedList<Entry>,
        ReservedList<u32>,
        ReservedList<EpochLine>,
        ReservedList<OpenLetter>,
    ),
    NoMemory,
>
    ensures entries { IfOk result (λ rooms. (rooms.0.items ≡ []) × (steps ≤ rooms.0.room)) }
    ensures installed { IfOk result (λ rooms. (rooms.1.items ≡ []) × (steps ≤ rooms.1.room)) }
    ensures epochs { IfOk result (λ rooms. (rooms.2.items ≡ []) × (steps ≤ rooms.2.room)) }
    ensures word { IfOk result (λ rooms. (rooms.3.items ≡ []) × (letters ≤ rooms.3.room)) }
{
    let word = ReservedList::with_room(alloc, letters)?;
    let epochs = ReservedList::with_room(alloc, steps)?;
    let installed = ReservedList::with_room(alloc, steps)?;
    let entries = ReservedList::with_room(alloc, steps)?;
    Ok((entries, installed, epochs, word))
}

/// What a flow of a rollout has beside its case before its first letter.
#[derive(Drop)]
struct Opening {
    link: Link,
    machine: Machine,
    account: Account,
    entries: ReservedList<Entry>,
    installed: ReservedList<u32>,
    epochs: ReservedList<EpochLine>,
    word: ReservedList<OpenLetter>,
}

impl Opening {
    /// What a flow of this case has. All that letters take is reserved here.
    // for the prover: it has the case by reference, so that `open`, which owns the case, has one exit for all failures
    fn of(alloc: Global, case: &OpenCase) -> Result<Opening, NoMemory>
        ensures { IfOk result (IsOpening case.now) }
    {
        let acks = case.acks as usize;
        let steps = case.steps.len();
        // for the prover: the four lists come last, so that no exit drops them
        let link = fresh_link(alloc, &case.link)?;
        let machine = Machine::new(alloc, case.cwnd, 0)?;
        let account = fresh_account(alloc, acks, steps)?;
        let (entries, installed, epochs, word) = reserve_lists(alloc, steps, acks + 2 * steps)?;
        Ok(Opening {
            link,
            machine,
            account,
            entries,
            installed,
            epochs,
            word,
        })
    }
}

impl State {
    /// The state of a flow that has no letter yet. All that letters take is reserved here.
    pub(crate) fn open(alloc: Global, case: OpenCase) -> Result<State, NoMemory>
        ensures open_state { IfOk result (λ state. IsOpen state) }
        ensures case { IfOk result (λ state. state.case ≡ case) }
        ensures entries { IfOk result (λ state. state.entries.items ≡ []) }
        ensures word { IfOk result (λ state. state.word.items ≡ []) }
    {
        let opening = Opening::of(alloc, &case)?;
        Ok(State {
            case,
            link: opening.link,
            machine: opening.machine,
            running: None,
            acks: 0,
            time: 0,
            account: opening.account,
            entries: opening.entries,
            installed: opening.installed,
            epochs: opening.epochs,
            word: opening.word,
        })
    }
}

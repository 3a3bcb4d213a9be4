//! What the letters of a driven flow make of the program that runs, and what its row and its end have of that.
ghost use Rattle.std.specs.Prelude.{◌≡◌, ◌<◌, ◌≤◌, length, true, is_some, None, Some, IfOk};
ghost use Rattle.ccp_base.specs.FieldReg.{first_bad_pair};
ghost use Rattle.flow_core.specs.Cores.{acked_as};
ghost use Rattle.campaign_core.specs.CampaignRow.{row_in};
ghost use Rattle.flow_core.specs.LiveText.{end_of};
ghost use Rattle.flow_core.specs.Runnings.{RunsOn, out_by, running_by, step_values};
ghost use Rattle.flow_core.specs.Summaries.{summary, step_ack, outcome_at};
ghost use Rattle.driven_flow.specs.Driven.{over_codes, code_in, is_known, is_known_for, bad_in, begun};
ghost use Rattle.driven_flow.specs.DrivenSteps.{summary_by, IsDrivenBy, step_given, Obeys, is_due_by};

use crate::answer::Answer;
use crate::case::DrivenCase;
use crate::programs::{Programs, code_of};
use campaign_core::{Row, Sums};
use ccp_base::{Ack, Fields, NoMemory};
use flow_core::Running;
use fold_machine::{Acked, Steps};
use report_lines::End;
use std::alloc::Global;
use std::sync::ledger::Ledger;

/// What runs in a flow without a letter, after its first change: to this program with these values.
pub(crate) fn open(
    alloc: Global,
    case: &DrivenCase,
    programs: &Programs,
    program: u32,
    values: &Fields,
) -> Result<Running, NoMemory>
    requires known { is_known programs.now program ≡ true }
    requires good { first_bad_pair (length (code_in programs.now program).controls) values.now ≡ None }
    ensures driven { IfOk result (IsDrivenBy programs.now case.now) }
    ensures summary { IfOk result (λ s. summary_by s ≡ summary (over_codes programs.now case.now)
        (begun (over_codes programs.now case.now) case.now.link.mss program values.now)) }
{
    let code = code_of(programs, program);
    let window = case.initial_window();
    let running = Running::open(alloc, code, program, values, window, case.slots)?;
    Ok(running)
}

/// Takes an acknowledgement. One must be left.
#[inline(always)]
pub(crate) fn hear<L: Ledger>(
    running: &mut Running,
    case: &DrivenCase,
    programs: &Programs,
    ack: &Ack,
    steps: &mut Steps<L>,
) -> Acked
    requires driven { IsDrivenBy programs.now case.now running.old }
    requires left { running.old.acks < case.now.acks }
    ensures driven { IsDrivenBy programs.now case.now running.new }
    ensures step { summary_by running.new
        ≡ step_ack (over_codes programs.now case.now) ack.entry.now (summary_by running.old) }
    ensures acked { result
        ≡ acked_as (outcome_at (over_codes programs.now case.now) ack.entry.now (summary_by running.old)).0 }
{
    let code = code_of(programs, running.epoch.program);
    running.ack(code, case.flow, ack, steps)
}

/// Applies an answer to the ticket that is out.
pub(crate) fn settle(running: &mut Running, case: &DrivenCase, programs: &Programs, answer: &Answer)
    requires driven { IsDrivenBy programs.now case.now running.old }
    requires out { is_some (out_by running.old) ≡ true }
    requires known { is_known_for programs.now answer.now.program ≡ true }
    requires good { bad_in programs.now running.old.epoch.program answer.now ≡ None }
    ensures driven { IsDrivenBy programs.now case.now running.new }
    ensures step { summary_by running.new
        ≡ step_given (over_codes programs.now case.now) answer.now (summary_by running.old) }
{
    running.close();
    apply(running, case, programs, answer);
}

/// Does what an answer says, whose ticket was closed.
fn apply(running: &mut Running, case: &DrivenCase, programs: &Programs, answer: &Answer)
    requires present { is_known programs.now running.old.epoch.program ≡ true }
    requires runs { RunsOn (code_in programs.now) case.now.slots running.old }
    requires acks { running.old.acks ≤ case.now.acks }
    requires epoch { running.old.epoch.number < running.old.answered }
    requires known { is_known_for programs.now answer.now.program ≡ true }
    requires good { bad_in programs.now running.old.epoch.program answer.now ≡ None }
    ensures { Obeys programs.now case.now answer.now running.old running.new }
{
    match answer.program {
        None => update(running, case, programs, &answer.values),
        Some(program) => start(running, case, programs, program, &answer.values),
    }
}

/// Writes the values of an update.
fn update(running: &mut Running, case: &DrivenCase, programs: &Programs, values: &Fields)
    requires present { is_known programs.now running.old.epoch.program ≡ true }
    requires runs { RunsOn (code_in programs.now) case.now.slots running.old }
    requires good { first_bad_pair (length (code_in programs.now running.old.epoch.program).controls) values.now ≡ None }
    ensures present { is_known programs.now running.new.epoch.program ≡ true }
    ensures runs { RunsOn (code_in programs.now) case.now.slots running.new }
    ensures step { running_by running.new
        ≡ step_values (over_codes programs.now case.now) None values.now (running_by running.old) }
{
    let _ = case;
    let code = code_of(programs, running.epoch.program);
    running.update(code, values);
}

/// Starts the program with this number, with these values.
fn start(
    running: &mut Running,
    case: &DrivenCase,
    programs: &Programs,
    program: u32,
    values: &Fields,
)
    requires runs { RunsOn (code_in programs.now) case.now.slots running.old }
    requires acks { running.old.acks ≤ case.now.acks }
    requires epoch { running.old.epoch.number < running.old.answered }
    requires known { is_known programs.now program ≡ true }
    requires good { first_bad_pair (length (code_in programs.now program).controls) values.now ≡ None }
    ensures present { is_known programs.now running.new.epoch.program ≡ true }
    ensures runs { RunsOn (code_in programs.now) case.now.slots running.new }
    ensures step { running_by running.new
        ≡ step_values (over_codes programs.now case.now) (Some program) values.now (running_by running.old) }
{
    let _ = case;
    let code = code_of(programs, program);
    running.start(code, program, values);
}

/// How the flow stands.
pub(crate) fn end(running: &Running) -> End
    ensures { result ≡ end_of running.now.acks (summary_by running.now).track }
{
    End {
        acks: u64::from(running.acks),
        first: running.epoch.first,
        stopped: running.machine.is_stopped(),
        cwnd: running.machine.cwnd(),
        rate: running.machine.rate(),
        fields: running.machine.fields(),
    }
}

/// The row of the flow, by the sums over its acknowledgements and its greatest window, in bytes.
pub(crate) fn row(running: &Running, sums: Sums, peak: u64) -> Row
    ensures { result ≡ row_in (summary_by running.now) sums peak }
{
    let acks = u64::from(running.acks);
    Row {
        acks,
        reports: u64::from(running.told),
        held: u64::from(running.held),
        faults: u64::from(running.faults),
        epochs: u64::from(running.epoch.number) + 1,
        lost: sums.lost,
        timeouts: sums.timeouts,
        acked: sums.acked,
        peak,
        cwnd: running.machine.cwnd(),
        now: running.time,
        tail: acks.saturating_sub(running.epoch.first),
    }
}

/// Whether an answer is due to the ticket that is out.
pub(crate) fn is_due(running: &Running, case: &DrivenCase) -> bool
    ensures { result ≡ is_due_by case.now (summary_by running.now) }
{
    match running.taken {
        None => false,
        Some(taken) => {
            running.acks >= case.acks
                || u64::from(taken) + u64::from(case.lag) <= u64::from(running.acks)
        }
    }
}

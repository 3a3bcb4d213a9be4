//! Running an acknowledgement, and recording its report or its fault.
ghost use Rattle.std.specs.Prelude.{◌≡◌, ◌+◌, ◌<◌, length};
ghost use Rattle.portus_core.specs.Epoch.{stops, reported};
ghost use Rattle.fold_machine.specs.MachineState.{Fits};
ghost use Rattle.flow_core.specs.Readings.{env_of};
ghost use Rattle.flow_core.specs.States.{outcome_by};
ghost use Rattle.open_flow.specs.Accounts.{met_as, IsMet, ran_on, HasPlaceFor, RecordsOutcome};

use ccp_base::{Ack, Notice, Report, RunningEpoch};
use flow_core::ReservedList;
use fold_machine::{Acked, Machine, Steps};
use reg_code::Checked;
use std::sync::ledger::Ledger;

/// The reports and the faults of a flow.
#[derive(Drop)]
pub(crate) struct Account {
    pub(crate) reports: ReservedList<Report>,
    pub(crate) faults: ReservedList<Notice>,
}

/// Runs an acknowledgement on the machine, with room for a report.
// for the prover: here the machine's clauses become those of `IsMet` and `ran_on`
pub(crate) fn run_ack<L: Ledger>(
    machine: &mut Machine,
    code: &Checked,
    ack: &Ack,
    steps: &mut Steps<L>,
) -> Acked
    requires { Fits machine.old code.now.code }
    ensures met { IsMet code.now.code machine.old ack.entry.now machine.new result }
    ensures stopped { machine.new.is_stopped ≡ stops (outcome_by result machine.new.report) }
    ensures fits { Fits machine.new code.now.code }
    ensures steps { steps.new ≡ steps.old + ran_on code.now.code machine.old ack.entry.now }
{
    machine.ack(code, ack, true, steps)
}

impl Account {
    /// Records the outcome of an acknowledgement of this epoch, by the machine's answer. `at` others came before it.
    pub(crate) fn record_outcome(
        &mut self,
        epoch: &mut RunningEpoch,
        flow: u32,
        at: u32,
        machine: &Machine,
        ack: &Ack,
        acked: Acked,
    )
        requires reports { length self.old.reports.items < self.old.reports.room }
        requires faults { HasPlaceFor acked self.old }
        ensures { RecordsOutcome flow at epoch.old epoch.new self.old self.new ack.entry.now
            (met_as acked machine.now) }
    {
        match acked {
            Acked::Quiet | Acked::Held | Acked::Stopped => {}
            Acked::Reported => self.record_report(epoch, flow, at, machine, ack),
            Acked::Faulted(kind, index) => {
                let cwnd = machine.cwnd();
                self.faults.push(epoch.notice(flow, u64::from(at), ack.now, cwnd, kind, index));
            }
        }
    }

    /// Records the report that the machine made.
    fn record_report(
        &mut self,
        epoch: &mut RunningEpoch,
        flow: u32,
        at: u32,
        machine: &Machine,
        ack: &Ack,
    )
        requires { length self.old.reports.items < self.old.reports.room }
        ensures { RecordsOutcome flow at epoch.old epoch.new self.old self.new ack.entry.now
            (reported machine.now.report, env_of machine.now.kept) }
    {
        let cwnd = machine.cwnd();
        let rate = machine.rate();
        let fields = machine.reported();
        let report = epoch.report(flow, u64::from(at) + 1, ack.now, cwnd, rate, &fields);
        self.reports.push(report);
    }
}

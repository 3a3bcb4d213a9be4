//! A fold under way: it runs one acknowledgement after another and keeps what the program reports.
ghost use Rattle.std.specs.Prelude.{◌≡◌, ◌<◌, ◌+◌, ◌++◌, IfOk, OnOk, None, [], false, ◌^◌};
ghost use Rattle.ccp_base.specs.Limits.{most_acks};
ghost use Rattle.portus_core.specs.ProgramForm.{form_of};
ghost use Rattle.fold_machine.specs.MachineState.{Fits};
ghost use Rattle.fold_machine.specs.Heard.{is_fault, stops};
ghost use Rattle.reg_compiler.specs.Simulation.{env_of};
ghost use Rattle.fold_run.specs.Fold.{fold_start};
ghost use Rattle.fold_run.specs.AnswerMeaning.{mean_of, HasItsPlace};
ghost use Rattle.fold_run.specs.Folding.{folding_track, folding_code_run, IsFoldOf, KeepsNotice, made_by_code, by_program};
ghost use Rattle.fold_run.specs.Folding.{code_after, end_with, fault_after, fault_in, folding_notice, reported_by};
ghost use Rattle.fold_run.specs.Folding.{reports_after, track_after};
ghost use Rattle.fold_run.specs.Ran.{running_start};

use ccp_base::{Ack, FaultKind, Fields, NoMemory, Notice, Reports, RunningEpoch};
use fold_machine::{Acked, Machine, Steps};
use reg_compiler::Built;
use report_lines::End;
use std::alloc::Global;
use std::sync::ledger::Ledger;

/// How far a fold has come.
#[derive(Drop)]
pub struct Folding {
    pub machine: Machine,
    /// The fold's one epoch.
    pub epoch: RunningEpoch,
    /// How many acknowledgements there were.
    pub count: u64,
    /// How many instructions were run.
    pub ran: u64,
    pub reports: Reports,
    /// The fault that stopped the program, if there was one.
    pub fault: Option<Notice>,
}

// A function of its own: its clauses are about the machine alone, while its caller changes the rest of the fold.
/// The machine's answer to an acknowledgement, with room for a report.
fn machine_answer<L: Ledger>(
    machine: &mut Machine,
    built: &Built,
    ack: &Ack,
    steps: &mut Steps<L>,
) -> Acked
    requires fits { Fits machine.old built.now.code.code }
    requires going { machine.old.is_stopped ≡ false }
    ensures mean { (by_program built.now machine.old.kept ack.entry.now).0
        ≡ mean_of built.now.places machine.new.report result }
    ensures placed { HasItsPlace built.now.places result }
    ensures env { env_of machine.new.kept ≡ (by_program built.now machine.old.kept ack.entry.now).1 }
    ensures kept { machine.new.kept ≡ (made_by_code built.now machine.old.kept ack.entry.now).kept }
    ensures ran { machine.new.ran ≡ (made_by_code built.now machine.old.kept ack.entry.now).ran }
    ensures stopped { machine.new.is_stopped ≡ stops (made_by_code built.now machine.old.kept ack.entry.now).outcome }
    ensures stops { machine.new.is_stopped ≡ is_fault result }
    ensures fits { Fits machine.new built.now.code.code }
{
    machine.ack(&built.code, ack, true, steps)
}

impl Folding {
    /// A fold before its first acknowledgement.
    pub fn begin(alloc: Global, built: &Built) -> Result<Folding, NoMemory>
        ensures track { IfOk result (λ folding. folding_track folding ≡ fold_start (form_of built.now.program)) }
        ensures running { IfOk result (λ folding. folding_code_run folding ≡ running_start built.now.code.code) }
        ensures reports { IfOk result (λ folding. folding.reports ≡ []) }
        ensures fault { IfOk result (λ folding. folding.fault ≡ None) }
        ensures fold { IfOk result (IsFoldOf built.now.code.code) }
        ensures count { IfOk result (λ folding. folding.count ≡ 0) }
    {
        let mut machine = Machine::new(alloc, 0, 0)?;
        match machine.start(&built.code, &Fields::new(), 0) {
            Ok(()) => Ok(Folding {
                machine,
                epoch: RunningEpoch::opening(0, 0),
                count: 0,
                ran: 0,
                reports: Reports::new(alloc),
                fault: None,
            }),
            Err(_) => unreachable!(),
        }
    }

    /// Runs one more acknowledgement, with room for a report.
    pub fn ack<L: Ledger>(
        &mut self,
        built: &Built,
        ack: &Ack,
        steps: &mut Steps<L>,
    ) -> Result<(), NoMemory>
        requires fold { IsFoldOf built.now.code.code self.old }
        requires room { self.old.count < most_acks }
        ensures track { OnOk result (folding_track self.new ≡ track_after built.now self.old ack.entry.now) }
        ensures running { OnOk result (folding_code_run self.new ≡ code_after built.now self.old ack.entry.now) }
        ensures reports { OnOk result (self.new.reports
            ≡ self.old.reports ++ reports_after built.now self.old ack.entry.now) }
        ensures fault { OnOk result (fault_in built.now self.new ≡ fault_after built.now self.old ack.entry.now) }
        ensures notice { OnOk result (KeepsNotice built.now ack.entry.now self.old self.new) }
        ensures fold { OnOk result (IsFoldOf built.now.code.code self.new) }
        ensures counted { OnOk result (self.new.count ≡ self.old.count + 1) }
    {
        let at = self.count;
        self.count += 1;
        if self.fault.is_some() {
            return Ok(());
        }
        let acked = machine_answer(&mut self.machine, built, ack, steps);
        self.ran += u64::from(self.machine.ran());
        match acked {
            Acked::Quiet | Acked::Held | Acked::Stopped => Ok(()),
            Acked::Reported => self.report(ack),
            Acked::Faulted(kind, index) => {
                self.fault = Some(self.notice(at, kind, index, ack.now));
                Ok(())
            }
        }
    }

    /// Makes the report of the span up to the acknowledgement that was just counted.
    fn report(&mut self, ack: &Ack) -> Result<(), NoMemory>
        requires { self.old.count < 2 ^ 64 }
        ensures { OnOk result (self.new ≡ reported_by self.old ack.entry.now) }
    {
        let fields = self.machine.reported();
        let cwnd = self.machine.cwnd();
        let rate = self.machine.rate();
        let report = self
            .epoch
            .report(0, self.count, ack.now, cwnd, rate, &fields);
        self.reports.push(report)?;
        Ok(())
    }

    /// The notice that the acknowledgement with the number `at` and the time `now` faulted.
    fn notice(&self, at: u64, kind: FaultKind, index: u16, now: u64) -> Notice
        ensures { result ≡ folding_notice self.now at kind index now }
    {
        self.epoch
            .notice(0, at, now, self.machine.cwnd(), kind, index)
    }

    /// The end of the fold.
    pub fn end(&self) -> End
        ensures { result ≡ end_with self.now }
    {
        End {
            acks: self.count,
            first: self.epoch.first,
            stopped: self.fault.is_some(),
            cwnd: self.machine.cwnd(),
            rate: self.machine.rate(),
            fields: self.machine.fields(),
        }
    }
}

//! A program that runs on a flow's acknowledgements, with what waits to be told and the counts: no case, no agent, no
//! history.
ghost use Rattle.std.specs.Prelude.{◌≡◌, ◌+◌, ◌<◌, ◌≤◌, ◌&&◌, length, true, is_some, is_none, None, Some, option_map, IfOk};
ghost use Rattle.ccp_base.specs.FieldReg.{first_bad_pair};
ghost use Rattle.ccp_base.specs.Limits.{most_acks, most_slots};
ghost use Rattle.portus_core.specs.Epoch.{reported, failed};
ghost use Rattle.reg_code.specs.declared.code.Code.{Code};
ghost use Rattle.slot_pool.specs.Pool.{free_of};
ghost use Rattle.agent_core.specs.Agents.{window_pair};
ghost use Rattle.fold_machine.specs.MachineState.{Fits, fresh_machine};
ghost use Rattle.fold_machine.specs.Heard.{started_by};
ghost use Rattle.flow_core.specs.Readings.{by_code};
ghost use Rattle.flow_core.specs.Cores.{acked_as};
ghost use Rattle.flow_core.specs.LiveText.{reports_told};
ghost use Rattle.flow_core.specs.States.{outcome_by};
ghost use Rattle.flow_core.specs.Runnings.{out_by, running_by, IsRunning, running_at_start, started_env, step_run};
ghost use Rattle.flow_core.specs.Runnings.{outcome_for, instructions_for, CanNote, HasSpace, Notes, can_tell, step_issue};
ghost use Rattle.flow_core.specs.Runnings.{closed, step_update, step_start, started};

use crate::machine_calls::{pop_content, put_last_report, run};
use ccp_base::{Ack, FaultKind, Fields, NoMemory, Report, RunningEpoch, Told, Values};
use flow_lists::Outbox;
use fold_machine::{Acked, Machine, Steps};
use reg_code::Checked;
use std::alloc::Global;
use std::sync::ledger::Ledger;

/// What the ticket that is out tells, and at how many acknowledgements it was taken.
#[derive(Clone, Copy, Drop)]
pub struct Issued {
    pub told: Told,
    pub taken: u32,
}

/// A program that runs on a flow's acknowledgements.
// Its fields are public: a flow around it says in its own invariant what holds of them.
#[derive(Drop)]
pub struct Running {
    /// It runs the epoch's program. Its further slots are the outbox's.
    pub machine: Machine,
    pub epoch: RunningEpoch,
    /// How many acknowledgements are in.
    pub acks: u32,
    /// The time of the last acknowledgement in microseconds, 0 if there is none.
    pub time: u64,
    pub outbox: Outbox,
    // A place that stays, and that each ticket fills: its content is large, so moving it costs more than reading it.
    /// What the last ticket told; a report of nothing until there is one.
    pub content: Told,
    /// At how many acknowledgements the ticket that is out was taken; None if none is out.
    pub taken: Option<u32>,
    /// How many tickets were answered.
    pub answered: u32,
    /// How many of them had a report.
    pub told: u32,
    /// How many faults there were.
    pub faults: u32,
    /// How many reports were asked for while there was no room.
    pub held: u32,
}

impl Running {
    /// A flow's first epoch: this program, with this code, and with these values. Before them the window is `cwnd` bytes.
    /// At most `slots` reports may wait.
    pub fn open(
        alloc: Global,
        code: &Checked,
        program: u32,
        values: &Fields,
        cwnd: u64,
        slots: u32,
    ) -> Result<Running, NoMemory>
        requires slots { (1 ≤ slots) × (slots ≤ most_slots) }
        requires good { first_bad_pair (length code.now.code.controls) values.now ≡ None }
        ensures running { IfOk result IsRunning }
        ensures fits { IfOk result (λ s. Fits s.machine code.now.code) }
        ensures size { IfOk result (λ s. s.outbox.size ≡ slots) }
        ensures start { IfOk result (λ s.
            running_by s ≡ running_at_start program (started_env code.now.code values.now cwnd 0 0)) }
    {
        let outbox = Outbox::new(alloc, slots)?;
        let machine = started_machine(alloc, code, values, cwnd, slots)?;
        Ok(Running {
            machine,
            epoch: RunningEpoch::opening(program, 0),
            acks: 0,
            time: 0,
            outbox,
            content: Told::Report(no_report()),
            taken: None,
            answered: 0,
            told: 0,
            faults: 0,
            held: 0,
        })
    }

    /// Takes an acknowledgement of the flow with this number, whose program has this code.
    #[inline(always)]
    pub fn ack<L: Ledger>(
        &mut self,
        code: &Checked,
        flow: u32,
        ack: &Ack,
        steps: &mut Steps<L>,
    ) -> Acked
        requires running { IsRunning self.old }
        requires fits { Fits self.old.machine code.now.code }
        requires left { self.old.acks < most_acks }
        ensures running { IsRunning self.new }
        ensures fits { Fits self.new.machine code.now.code }
        ensures size { self.new.outbox.size ≡ self.old.outbox.size }
        ensures step { running_by self.new
            ≡ step_run code.now.code flow self.old.outbox.size ack.entry.now (running_by self.old) }
        ensures acked { result
            ≡ acked_as (outcome_for (by_code code.now.code) self.old.outbox.size ack.entry.now (running_by self.old)).0 }
        ensures steps { steps.new
            ≡ steps.old + instructions_for code.now.code self.old.outbox.size ack.entry.now (running_by self.old) }
    {
        let room = self.outbox.room();
        let acked = run(&mut self.machine, code, ack, room, steps);
        self.record_outcome(flow, ack, acked);
        self.acks += 1;
        self.time = ack.now;
        acked
    }

    /// Records the outcome of an acknowledgement, by the machine's answer. Most have none.
    #[inline(always)]
    fn record_outcome(&mut self, flow: u32, ack: &Ack, acked: Acked)
        requires can { CanNote self.old }
        requires acks { self.old.acks < most_acks }
        requires room { acked ≡ Acked.Reported → HasSpace self.old }
        ensures { Notes flow self.old self.new ack.entry.now (outcome_by acked self.old.machine.report) }
    {
        if let Acked::Quiet = acked {
            return;
        }
        self.record_any_outcome(flow, ack, acked);
    }

    // A function of its own: few acknowledgements call it, and `record_outcome` is inlined without it.
    /// Records the outcome of an acknowledgement, by the machine's answer.
    #[inline(never)]
    fn record_any_outcome(&mut self, flow: u32, ack: &Ack, acked: Acked)
        requires can { CanNote self.old }
        requires acks { self.old.acks < most_acks }
        requires room { acked ≡ Acked.Reported → HasSpace self.old }
        ensures { Notes flow self.old self.new ack.entry.now (outcome_by acked self.old.machine.report) }
    {
        match acked {
            Acked::Quiet | Acked::Stopped => {}
            Acked::Reported => self.record_report(flow, ack),
            Acked::Held => self.held += 1,
            Acked::Faulted(kind, index) => self.record_fault(flow, ack, kind, index),
        }
    }

    /// Records the report that the machine made.
    fn record_report(&mut self, flow: u32, ack: &Ack)
        requires can { CanNote self.old }
        requires acks { self.old.acks < most_acks }
        requires room { length self.old.outbox.slots < self.old.outbox.size }
        requires free { 0 < free_of self.old.machine.further }
        ensures { Notes flow self.old self.new ack.entry.now (reported self.old.machine.report) }
    {
        let cwnd = self.machine.cwnd();
        let rate = self.machine.rate();
        let end = u64::from(self.acks) + 1;
        // without the fields, which go from the machine to the slot
        let report = self
            .epoch
            .report(flow, end, ack.now, cwnd, rate, &Values::new());
        put_last_report(&mut self.machine, &mut self.outbox, &report);
    }

    /// Records a fault of this kind at the instruction with this index.
    fn record_fault(&mut self, flow: u32, ack: &Ack, kind: FaultKind, index: u16)
        requires { CanNote self.old }
        ensures { Notes flow self.old self.new ack.entry.now (failed (kind, index)) }
    {
        let cwnd = self.machine.cwnd();
        let at = u64::from(self.acks);
        let notice = self.epoch.notice(flow, at, ack.now, cwnd, kind, index);
        self.faults += 1;
        self.outbox.note(notice);
    }

    /// Takes the oldest report, or else the notice, as a ticket. One must be there, and no ticket may be out.
    pub fn issue(&mut self)
        requires running { IsRunning self.old }
        requires none_out { out_by self.old ≡ None }
        requires some { can_tell (running_by self.old) ≡ true }
        ensures running { IsRunning self.new }
        ensures fits { (code : Code) → Fits self.old.machine code → Fits self.new.machine code }
        ensures size { self.new.outbox.size ≡ self.old.outbox.size }
        ensures step { running_by self.new ≡ step_issue (running_by self.old) }
        ensures out { self.new.taken ≡ Some self.new.acks }
    {
        pop_content(&mut self.machine, &mut self.outbox, &mut self.content);
        let taken = self.acks;
        self.taken = Some(taken);
    }

    /// Records that the ticket that is out was answered. A program may be started after that.
    pub fn close(&mut self)
        requires running { IsRunning self.old }
        requires acks { self.old.acks ≤ most_acks }
        requires out { is_some (out_by self.old) ≡ true }
        ensures running { IsRunning self.new }
        ensures frame { self.new ≡ closed self.old }
        ensures epoch { self.new.epoch.number < self.new.answered }
    {
        self.taken = None;
        self.answered += 1;
        self.told += reports_told(&self.content);
    }

    /// Writes the window of an update, in bytes.
    pub fn set_window(&mut self, cwnd: u64)
        requires { IsRunning self.old }
        ensures running { IsRunning self.new }
        ensures fits { (code : Code) → Fits self.old.machine code → Fits self.new.machine code }
        ensures size { self.new.outbox.size ≡ self.old.outbox.size }
        ensures step { running_by self.new ≡ step_update (window_pair cwnd) (running_by self.old) }
    {
        self.machine.set_cwnd(cwnd);
    }

    /// Writes the values of an update of the program, which has this code.
    pub fn update(&mut self, code: &Checked, values: &Fields)
        requires running { IsRunning self.old }
        requires fits { Fits self.old.machine code.now.code }
        requires good { first_bad_pair (length code.now.code.controls) values.now ≡ None }
        ensures running { IsRunning self.new }
        ensures fits { Fits self.new.machine code.now.code }
        ensures size { self.new.outbox.size ≡ self.old.outbox.size }
        ensures step { running_by self.new ≡ step_update values.now (running_by self.old) }
    {
        let Ok(()) = self.machine.update(code, values) else {
            unreachable!()
        };
    }

    /// Starts the program with this number and this code, and with it an epoch, with these values. An untold notice is
    /// void then. A ticket must have been answered for each epoch that was started and for this one.
    pub fn start(&mut self, code: &Checked, program: u32, values: &Fields)
        requires running { IsRunning self.old }
        requires acks { self.old.acks ≤ most_acks }
        requires epoch { self.old.epoch.number < self.old.answered }
        requires good { first_bad_pair (length code.now.code.controls) values.now ≡ None }
        ensures running { IsRunning self.new }
        ensures fits { Fits self.new.machine code.now.code }
        ensures size { self.new.outbox.size ≡ self.old.outbox.size }
        ensures step { running_by self.new
            ≡ step_start program (started_env code.now.code values.now
            self.old.machine.kept.cwnd self.old.machine.kept.rate self.old.time) (running_by self.old) }
    {
        self.begin_epoch(code, program, values);
    }

    // A function of its own: its clause is one equation, which the proof of `start` cites.
    /// Starts the program with this number and this code, and with it an epoch, with these values.
    fn begin_epoch(&mut self, code: &Checked, program: u32, values: &Fields)
        requires good { first_bad_pair (length code.now.code.controls) values.now ≡ None }
        requires epoch { self.old.epoch.number < most_acks }
        ensures frame { self.new ≡ started code.now.code program values.now self.old }
        ensures fits { Fits self.new.machine code.now.code }
    {
        let Ok(()) = self.machine.start(code, values, self.time) else {
            unreachable!()
        };
        self.epoch = self.epoch.next(program, u64::from(self.acks));
        self.outbox.void();
    }

    /// Whether a report waits or a notice is untold.
    pub fn can_take(&self) -> bool
        ensures { result ≡ can_tell (running_by self.now) }
    {
        !self.outbox.is_empty()
    }

    /// Whether a ticket is out.
    pub fn has_out(&self) -> bool
        ensures { result ≡ is_some (out_by self.now) }
    {
        self.taken.is_some()
    }

    /// What the ticket that is out tells, if one is out.
    pub fn told_out(&self) -> Option<Told>
        ensures { result ≡ option_map (λ issued. issued.told) (out_by self.now) }
    {
        self.taken?;
        Some(self.content)
    }

    /// Whether a ticket may be taken: none is out, and a report waits or a notice is untold.
    pub fn may_take(&self) -> bool
        ensures { result ≡ is_none (out_by self.now) && can_tell (running_by self.now) }
    {
        !self.has_out() && self.can_take()
    }
}

/// A machine that runs a program with this code and these values. Before them the window is `cwnd` bytes.
fn started_machine(
    alloc: Global,
    code: &Checked,
    values: &Fields,
    cwnd: u64,
    slots: u32,
) -> Result<Machine, NoMemory>
    requires slots { slots ≤ most_slots }
    requires good { first_bad_pair (length code.now.code.controls) values.now ≡ None }
    ensures started { IfOk result (λ machine.
        machine ≡ started_by code.now.code values.now 0 (fresh_machine cwnd 0 slots)) }
    ensures fits { IfOk result (λ machine. Fits machine code.now.code) }
{
    let mut machine = Machine::roomy(alloc, cwnd, 0, slots)?;
    let Ok(()) = machine.start(code, values, 0) else {
        unreachable!()
    };
    Ok(machine)
}

/// A report of nothing.
fn no_report() -> Report {
    Report {
        flow: 0,
        program: 0,
        epoch: 0,
        first: 0,
        end: 0,
        now: 0,
        cwnd: 0,
        rate: 0,
        fields: Values::new(),
    }
}

/// How many reports a ticket's content is: one or none.
fn reports_told(told: &Told) -> u32
    ensures told { result ≡ reports_told told.now }
    ensures one { result ≤ 1 }
{
    match told {
        Told::Report(_) => 1,
        Told::Fault(_) => 0,
    }
}

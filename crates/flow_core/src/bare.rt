//! What later letters of a flow depend on, without its history.
ghost use Rattle.std.specs.Prelude.{◌≡◌, ◌+◌, ◌<◌, ◌≤◌, length, true, is_some, None, Some, option_map, IfOk};
ghost use Rattle.ccp_base.specs.FieldReg.{first_bad_pair};
ghost use Rattle.agent_core.specs.Agents.{values_of};
ghost use Rattle.flow_core.specs.Readings.{env_of, code_at, over_codes};
ghost use Rattle.flow_core.specs.World.{opening};
ghost use Rattle.flow_core.specs.Cores.{acked_as};
ghost use Rattle.flow_core.specs.Runnings.{RunsOn, out_by, running_by, can_tell, step_values};
ghost use Rattle.flow_core.specs.Summaries.{summary, step_ack, step_take, step_answer, outcome_at};
ghost use Rattle.flow_core.specs.Summaries.{may_make, is_idle, is_done};
ghost use Rattle.flow_core.specs.Bares.{summary_by, told_ticket, instructions_at, InRange, IsBare, IsFirst, AreGood, Obeys};
ghost use Rattle.flow_core.specs.BookFlows.{begun_line};
ghost use Rattle.flow_core.specs.ReadsRates.{case_reads_rates};
ghost use Rattle.link_model.specs.Rated.{rated};

use crate::book::EpochLine;
use crate::case::Case;
use crate::letter::Letter;
use crate::running::Running;
use agent_core::{Agent, Answer, Ticket};
use ccp_base::{Ack, NoMemory, Notice, Reply};
use fold_machine::{Acked, Machine, Steps};
use std::alloc::Global;
use std::marker::{Brand, Model};
use std::sync::ledger::{Blank, Ledger};

/// What later letters depend on, part by part.
#[derive(Drop)]
pub(crate) struct BareParts {
    pub(crate) case: Case,
    pub(crate) agent: Agent,
    pub(crate) running: Running,
}

// A function of its own: it has the case by reference, so that none of its exits drops it.
/// What runs in a flow of this case before its first letter.
fn open_running(alloc: Global, case: &Case) -> Result<Running, NoMemory>
    ensures { IfOk result (IsFirst case.now) }
{
    let program = case.agent.course().ss.number;
    let values = case.agent.values(&case.agent.begin());
    let running = Running::open(alloc, case.code(program), program, &values, 0, case.slots)?;
    Ok(running)
}

/// Does what this agent's reply says.
fn apply_reply(case: &Case, agent: &Agent, running: &mut Running, reply: &Reply)
    requires runs { RunsOn (code_at case.now) case.now.slots running.old }
    requires acks { running.old.acks ≤ case.now.acks }
    requires good { AreGood case.now running.old.epoch.program reply.now (values_of agent.now reply.now) }
    requires epoch { running.old.epoch.number < running.old.answered }
    ensures { Obeys case.now reply.now (values_of agent.now reply.now) running.old running.new }
{
    match *reply {
        Reply::Nothing => {}
        Reply::Update(cwnd) => running.set_window(cwnd),
        Reply::Change { program, .. } => start_program(case, agent, running, program, reply),
    }
}

// A function of its own: few replies call it, and it has a list of values in its frame.
/// Starts the program with this number with the values of this agent's reply.
#[inline(never)]
fn start_program(case: &Case, agent: &Agent, running: &mut Running, program: u32, reply: &Reply)
    requires runs { RunsOn (code_at case.now) case.now.slots running.old }
    requires acks { running.old.acks ≤ case.now.acks }
    requires good { first_bad_pair (length (code_at case.now program).controls) (values_of agent.now reply.now) ≡ None }
    requires epoch { running.old.epoch.number < running.old.answered }
    ensures runs { RunsOn (code_at case.now) case.now.slots running.new }
    ensures step { running_by running.new
        ≡ step_values (over_codes case.now) (Some program) (values_of agent.now reply.now) (running_by running.old) }
{
    let values = agent.values(reply);
    running.start(case.code(program), program, &values);
}

impl BareParts {
    /// A flow without a letter.
    fn open(alloc: Global, case: Case) -> Result<BareParts, NoMemory>
        ensures parts { IfOk result IsBare }
        ensures case { IfOk result (λ s. s.case ≡ case) }
        ensures summary { IfOk result (λ s. summary_by s ≡ summary (over_codes case) (opening (over_codes case))) }
    {
        match open_running(alloc, &case) {
            Ok(running) => Ok(BareParts::at_opening(case, running)),
            Err(fault) => {
                drop(case);
                Err(fault)
            }
        }
    }

    // A function of its own: it can't fail, so the proof has the whole flow at one exit.
    /// A flow of this case in which this runs before its first letter.
    fn at_opening(case: Case, running: Running) -> BareParts
        requires { IsFirst case running }
        ensures parts { IsBare result }
        ensures case { result.case ≡ case }
        ensures summary { summary_by result ≡ summary (over_codes case) (opening (over_codes case)) }
    {
        let agent = case.agent;
        BareParts {
            case,
            agent,
            running,
        }
    }

    /// Takes the oldest report, or else the notice, as a ticket. One must be there, and no ticket may be out.
    fn take(&mut self) -> Ticket
        requires parts { IsBare self.old }
        requires none_out { out_by self.old.running ≡ None }
        requires some { can_tell (running_by self.old.running) ≡ true }
        ensures parts { IsBare self.new }
        ensures case { self.new.case ≡ self.old.case }
        ensures step { summary_by self.new ≡ step_take (summary_by self.old) }
        ensures ticket { told_ticket self.old.case (summary_by self.new) ≡ Some result }
    {
        self.issue();
        self.ticket()
    }

    /// As `take`, without the ticket.
    fn issue(&mut self)
        requires parts { IsBare self.old }
        requires none_out { out_by self.old.running ≡ None }
        requires some { can_tell (running_by self.old.running) ≡ true }
        ensures parts { IsBare self.new }
        ensures case { self.new.case ≡ self.old.case }
        ensures step { summary_by self.new ≡ step_take (summary_by self.old) }
        ensures out { self.new.running.taken ≡ Some self.new.running.acks }
    {
        self.running.issue();
    }

    /// Takes an acknowledgement. One must be left.
    #[inline(always)]
    fn hear<L: Ledger>(&mut self, ack: &Ack, steps: &mut Steps<L>) -> Acked
        requires parts { IsBare self.old }
        requires left { self.old.running.acks < self.old.case.acks }
        ensures parts { IsBare self.new }
        ensures case { self.new.case ≡ self.old.case }
        ensures step { summary_by self.new ≡ step_ack (over_codes self.old.case) ack.entry.now (summary_by self.old) }
        ensures acked { result
            ≡ acked_as (outcome_at (over_codes self.old.case) ack.entry.now (summary_by self.old)).0 }
        ensures steps { steps.new ≡ steps.old + instructions_at self.old.case ack.entry.now (summary_by self.old) }
    {
        let flow = self.case.flow;
        let program = self.running.epoch.program;
        self.running.ack(self.case.code(program), flow, ack, steps)
    }

    /// Applies the answer to the ticket that is out.
    fn settle(&mut self, answer: &Answer)
        requires parts { IsBare self.old }
        requires out { told_ticket self.old.case (summary_by self.old) ≡ Some answer.now }
        ensures parts { IsBare self.new }
        ensures case { self.new.case ≡ self.old.case }
        ensures step { summary_by self.new ≡ step_answer (over_codes self.old.case) (summary_by self.old) }
    {
        self.running.close();
        apply_reply(&self.case, &self.agent, &mut self.running, &answer.reply());
        self.agent = *answer.after();
    }

    // The agent replies where it stays: it is large, so a copy of it costs as much as many a reply.
    /// Has the agent answer the ticket that is out, and applies its answer.
    fn consult(&mut self)
        requires parts { IsBare self.old }
        requires out { is_some (out_by self.old.running) ≡ true }
        ensures parts { IsBare self.new }
        ensures case { self.new.case ≡ self.old.case }
        ensures step { summary_by self.new ≡ step_answer (over_codes self.old.case) (summary_by self.old) }
    {
        let reply = self.agent.reply(&self.running.content);
        self.running.close();
        apply_reply(&self.case, &self.agent, &mut self.running, &reply);
    }

    /// The ticket that tells the content.
    fn ticket(&self) -> Ticket
        ensures { result ≡ record {
          flow = self.now.case.flow;
          number = self.now.running.answered;
          before = self.now.agent;
          told = self.now.running.content;
        } }
    {
        Ticket {
            flow: self.case.flow,
            number: self.running.answered,
            before: self.agent,
            told: self.running.content,
        }
    }
}

/// A flow without its history and its link.
// A struct around the parts: what holds between letters is its invariant, while a step on the parts may break it.
#[derive(Drop)]
pub struct Bare {
    parts: BareParts,
}

impl Model for Bare {
    ghost use Rattle.flow_core.specs.Bares.{BareState, summary_by};

    ghost Value = { BareState };

    ghost use Rattle.flow_core.specs.Bares.{IsBare};

    ghost view = { λ b. record { case = b.parts.case; summary = summary_by b.parts } };

    ghost invariant = { λ b. IsBare b.parts };
}

impl Bare {
    /// A flow without a letter. The outbox is reserved here.
    pub fn new(alloc: Global, case: Case) -> Result<Bare, NoMemory>
        ensures { IfOk result (λ bare.
            bare ≡ record { case = case; summary = summary (over_codes case) (opening (over_codes case)) }) }
    {
        let parts = BareParts::open(alloc, case)?;
        Ok(Bare { parts })
    }

    /// The flow's case.
    pub fn case(&self) -> &Case
        ensures { result.now ≡ self.now.case }
    {
        &self.parts.case
    }

    /// How many acknowledgements are in.
    pub fn acks(&self) -> u32
        ensures { result ≡ self.now.summary.acks }
    {
        self.parts.running.acks
    }

    // For the proof alone: the type's invariant, as a clause that callers can cite.
    /// The counts are in range.
    pub(crate) fn range(&self)
        ensures { InRange self.now.case self.now.summary }
    {
        let _ = &self.parts;
    }

    /// The number of the program that runs.
    pub fn program(&self) -> u32
        ensures { result ≡ self.now.summary.program }
    {
        self.parts.running.epoch.program
    }

    /// How many reports wait.
    pub fn waiting(&self) -> u32
        ensures { result ≡ length self.now.summary.waiting }
    {
        self.parts.running.outbox.waiting()
    }

    /// The fault notice that is untold, or none.
    pub fn untold(&self) -> Option<Notice>
        ensures { result ≡ self.now.summary.untold }
    {
        self.parts.running.outbox.untold()
    }

    /// The present congestion window, in bytes.
    pub fn cwnd(&self) -> u64
        ensures { result ≡ self.now.summary.track.env.cwnd }
    {
        self.parts.running.machine.cwnd()
    }

    /// The time of the last acknowledgement in microseconds, 0 if there is none.
    pub fn time(&self) -> u64
        ensures { result ≡ self.now.summary.time }
    {
        self.parts.running.time
    }

    /// The number of the present epoch, 0 for the opening one.
    pub fn epoch(&self) -> u32
        ensures { result ≡ self.now.summary.epoch }
    {
        self.parts.running.epoch.number
    }

    /// The line of an epoch that begins now.
    pub(crate) fn begun_line(&self) -> EpochLine
        ensures { result ≡ begun_line self.now.summary }
    {
        EpochLine::of(
            &self.parts.running.epoch,
            self.parts.running.acks,
            self.parts.running.machine.cwnd(),
        )
    }

    /// The number of acknowledgements at which the unreported span begins.
    pub fn first(&self) -> u64
        ensures { result ≡ self.now.summary.track.first }
    {
        self.parts.running.epoch.first
    }

    /// How many answered tickets told a report.
    pub fn told(&self) -> u32
        ensures { result ≡ self.now.summary.told }
    {
        self.parts.running.told
    }

    /// How many faults there were.
    pub fn faults(&self) -> u32
        ensures { result ≡ self.now.summary.faults }
    {
        self.parts.running.faults
    }

    /// How many reports were asked for while there was no room.
    pub fn held(&self) -> u32
        ensures { result ≡ self.now.summary.held }
    {
        self.parts.running.held
    }

    /// Whether a ticket is out.
    pub fn has_out(&self) -> bool
        ensures { result ≡ may_make (over_codes self.now.case) self.now.summary Letter.C }
    {
        self.parts.running.has_out()
    }

    /// At how many acknowledgements the ticket that is out was taken, if one is out.
    pub fn taken(&self) -> Option<u32>
        ensures { result ≡ option_map (λ issued. issued.taken) self.now.summary.out }
    {
        let taken = self.parts.running.taken?;
        Some(taken)
    }

    /// The ticket that is out, if one is.
    pub fn out(&self) -> Option<Ticket>
        ensures { result ≡ told_ticket self.now.case self.now.summary }
    {
        self.parts.running.taken?;
        Some(self.parts.ticket())
    }

    /// The number of the ticket that is out, if one is.
    pub fn out_number(&self) -> Option<u32>
        ensures { result ≡ option_map (λ ticket. ticket.number) (told_ticket self.now.case self.now.summary) }
    {
        self.parts.running.taken?;
        Some(self.parts.running.answered)
    }

    /// Whether no ticket is out and nothing can be taken.
    pub fn is_idle(&self) -> bool
        ensures { result ≡ is_idle self.now.summary }
    {
        !self.parts.running.has_out() && !self.parts.running.can_take()
    }

    /// Whether all acknowledgements are in, nothing can be taken and no ticket is out.
    pub fn is_done(&self) -> bool
        ensures { result ≡ is_done (over_codes self.now.case) self.now.summary }
    {
        if self.parts.running.acks < self.parts.case.acks {
            return false;
        }
        !self.parts.running.has_out() && !self.parts.running.can_take()
    }

    /// Whether a ticket may be taken: none is out, and a report waits or a notice is untold.
    pub fn may_take(&self) -> bool
        ensures { result ≡ may_make (over_codes self.now.case) self.now.summary Letter.T }
    {
        self.parts.running.may_take()
    }

    /// Takes the oldest report, or else the notice, as a ticket.
    pub fn take(&mut self) -> Ticket
        requires { may_make (over_codes self.old.case) self.old.summary Letter.T ≡ true }
        ensures step { self.new ≡ record self.old { summary = step_take self.old.summary } }
        ensures ticket { told_ticket self.new.case self.new.summary ≡ Some result }
    {
        self.parts.take()
    }

    /// Takes the oldest report, or else the notice, as a ticket that isn't read here.
    pub fn issue(&mut self)
        requires { may_make (over_codes self.old.case) self.old.summary Letter.T ≡ true }
        ensures { self.new ≡ record self.old { summary = step_take self.old.summary } }
    {
        self.parts.issue();
    }

    /// Takes an acknowledgement. One must be left.
    #[inline(always)]
    pub fn ack<L: Ledger>(&mut self, ack: &Ack, steps: &mut Steps<L>) -> Acked
        requires { may_make (over_codes self.old.case) self.old.summary Letter.A ≡ true }
        ensures step { self.new
            ≡ record self.old { summary = step_ack (over_codes self.old.case) ack.entry.now self.old.summary } }
        ensures acked { result ≡ acked_as (outcome_at (over_codes self.old.case) ack.entry.now self.old.summary).0 }
        ensures steps { steps.new ≡ steps.old + instructions_at self.old.case ack.entry.now self.old.summary }
    {
        self.parts.hear(ack, steps)
    }

    /// As `ack`, without a count of the instructions. Without its rates an acknowledgement does the same, if the programs
    /// of the flow's case read neither.
    #[inline(always)]
    pub fn hear(&mut self, ack: &Ack) -> Acked
        requires { may_make (over_codes self.old.case) self.old.summary Letter.A ≡ true }
        ensures step { self.new
            ≡ record self.old { summary = step_ack (over_codes self.old.case) ack.entry.now self.old.summary } }
        ensures acked { result ≡ acked_as (outcome_at (over_codes self.old.case) ack.entry.now self.old.summary).0 }
        ensures unread { (whole : Ack) → ack.entry.now ≡ rated (case_reads_rates self.old.case) whole
            → self.new ≡ record self.old { summary = step_ack (over_codes self.old.case) whole self.old.summary } }
    {
        self.hear_in_ledger::<Brand>(ack, Blank::new(1))
    }

    // A function of its own: its two calls have one ledger, which the proof of `hear` picks.
    /// As `ack`, with a counter that nobody reads, which `blank` opens.
    #[inline(always)]
    fn hear_in_ledger<L: Ledger>(&mut self, ack: &Ack, blank: Blank) -> Acked
        requires ledger { (blank.name ≡ L.name) × (blank.parts ≡ L.parts) × (0 < blank.parts) }
        requires may { may_make (over_codes self.old.case) self.old.summary Letter.A ≡ true }
        ensures step { self.new
            ≡ record self.old { summary = step_ack (over_codes self.old.case) ack.entry.now self.old.summary } }
        ensures acked { result ≡ acked_as (outcome_at (over_codes self.old.case) ack.entry.now self.old.summary).0 }
    {
        let mut steps = Steps::<L>::new(blank);
        self.ack(ack, &mut steps)
    }

    /// Applies the answer to the ticket that is out.
    pub fn settle(&mut self, answer: &Answer)
        requires { told_ticket self.old.case self.old.summary ≡ Some answer.now }
        ensures { self.new ≡ record self.old { summary = step_answer (over_codes self.old.case) self.old.summary } }
    {
        self.parts.settle(answer)
    }

    /// Has the agent answer the ticket that is out, and applies its answer. No frame is made.
    pub fn consult(&mut self)
        requires { may_make (over_codes self.old.case) self.old.summary Letter.C ≡ true }
        ensures { self.new ≡ record self.old { summary = step_answer (over_codes self.old.case) self.old.summary } }
    {
        self.parts.consult();
    }

    /// The flow's case, and the machine as the last epoch left it.
    pub fn into_parts(self) -> (Case, Machine)
        ensures case { result.0 ≡ self.case }
        ensures registers { env_of result.1.kept ≡ self.summary.track.env }
        ensures stopped { result.1.is_stopped ≡ self.summary.track.is_stopped }
    {
        let parts = self.parts;
        (parts.case, parts.running.machine)
    }
}

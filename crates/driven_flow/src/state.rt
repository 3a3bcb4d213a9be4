//! All that a driven flow keeps: what later letters depend on, its link, its history and what its row needs of that.
ghost use Rattle.std.specs.Prelude.{◌≡◌, ◌<◌, [], length, is_some, true, None, Some, IfOk};
ghost use Rattle.ccp_base.specs.FieldReg.{first_bad_pair};
ghost use Rattle.campaign_core.specs.CampaignWord.{first_letter};
ghost use Rattle.flow_core.specs.Runnings.{out_by};
ghost use Rattle.driven_flow.specs.Driven.{code_in, is_known, is_known_for, bad_in, MayMake, told_out, world_by, flow_by};
ghost use Rattle.driven_flow.specs.DrivenJournals.{HasAckRoom, HasTakeRoom, HasAnswerRoom};
ghost use Rattle.driven_flow.specs.DrivenStates.{driven_of, IsState, with_letter, with_given, line_out, line_begun};
ghost use Rattle.driven_flow.specs.DrivenStates.{IsOpened};

use crate::answer::Answer;
use crate::case::DrivenCase;
use crate::journal::{Journal, new_notice};
use crate::letters;
use crate::programs::{Programs, first_bad};
use campaign_core::Sums;
use ccp_base::{Fields, NoMemory, Reply, Told};
use flow_core::{EpochLine, Letter, Running, TicketLine};
use fold_machine::Steps;
use link_model::Link;
use std::alloc::Global;
use std::sync::ledger::Ledger;

/// A driven flow, part by part.
#[derive(Drop)]
pub(crate) struct State<'p> {
    pub(crate) case: DrivenCase,
    pub(crate) programs: &'p Programs<'p>,
    /// The program of the first change.
    pub(crate) program: u32,
    /// The values of the first change.
    pub(crate) values: Fields,
    pub(crate) running: Running,
    pub(crate) link: Link,
    pub(crate) journal: Journal,
    pub(crate) sums: Sums,
    /// The greatest window after the first change or after a letter, in bytes.
    pub(crate) peak: u64,
}

/// What a driven flow has beside its case after its first change.
#[derive(Drop)]
pub(crate) struct Opened {
    pub(crate) running: Running,
    pub(crate) link: Link,
    pub(crate) journal: Journal,
}

impl Opened {
    // A function of its own: it has the case by reference, so that none of its exits drops it.
    /// What a flow of this case has after its first change: to this program with these values.
    pub(crate) fn of(
        alloc: Global,
        case: &DrivenCase,
        programs: &Programs,
        program: u32,
        values: &Fields,
    ) -> Result<Opened, NoMemory>
        requires known { is_known programs.now program ≡ true }
        requires good { first_bad_pair (length (code_in programs.now program).controls) values.now ≡ None }
        ensures { IfOk result (IsOpened programs.now case.now program values.now) }
    {
        let running = letters::open(alloc, case, programs, program, values)?;
        let link = case.open_link(alloc)?;
        let line = EpochLine::of(&running.epoch, 0, running.machine.cwnd());
        let journal = Journal::open(alloc, line)?;
        Ok(Opened {
            running,
            link,
            journal,
        })
    }
}

impl<'p> State<'p> {
    // A function of its own: it can't fail, so the proof has the whole flow at one exit.
    /// A flow that has this after its first change.
    pub(crate) fn begin(
        case: DrivenCase,
        programs: &'p Programs<'p>,
        program: u32,
        values: &Fields,
        opened: Opened,
    ) -> State<'p>
        requires { IsOpened programs.now case program values.now opened }
        ensures is { IsState result }
        ensures begun { driven_of result ≡ record {
          case = case;
          programs = programs.now;
          program = program;
          values = values.now;
          answers = [];
          word = [];
        } }
    {
        let peak = opened.running.machine.cwnd();
        State {
            case,
            programs,
            program,
            values: *values,
            running: opened.running,
            link: opened.link,
            journal: opened.journal,
            sums: Sums::none(),
            peak,
        }
    }

    /// Takes an acknowledgement of the link.
    #[inline(always)]
    pub(crate) fn hear<L: Ledger>(&mut self, steps: &mut Steps<L>)
        requires is { IsState self.old }
        requires may { MayMake (driven_of self.old) Letter.A }
        requires room { HasAckRoom self.old.journal }
        ensures is { IsState self.new }
        ensures word { driven_of self.new ≡ with_letter Letter.A (driven_of self.old) }
    {
        let window = self.running.machine.cwnd();
        let ack = self.link.next(window);
        let programs = self.programs;
        let acked = letters::hear(&mut self.running, &self.case, programs, &ack, steps);
        let fault = new_notice(acked, self.running.outbox.untold());
        self.journal.put_ack(&ack, fault);
        self.sums = self.sums.with(&ack);
        self.peak = self.peak.max(self.running.machine.cwnd());
    }

    /// Takes the oldest report, or else the notice, as a ticket.
    pub(crate) fn take(&mut self) -> Told
        requires is { IsState self.old }
        requires may { MayMake (driven_of self.old) Letter.T }
        requires room { HasTakeRoom self.old.journal }
        ensures is { IsState self.new }
        ensures word { driven_of self.new ≡ with_letter Letter.T (driven_of self.old) }
        ensures told { told_out (flow_by (driven_of self.new)) (world_by (driven_of self.new)) ≡ Some result }
    {
        self.running.issue();
        self.journal.put_take();
        self.peak = self.peak.max(self.running.machine.cwnd());
        self.running.content
    }

    /// The place of an answer's first value that names a control variable which the program that the values are for
    /// doesn't have.
    pub(crate) fn first_bad(&self, answer: &Answer) -> Option<u32>
        requires present { is_known self.now.programs.now self.now.running.epoch.program ≡ true }
        requires known { is_known_for self.now.programs.now answer.now.program ≡ true }
        ensures { result ≡ bad_in self.now.programs.now self.now.running.epoch.program answer.now }
    {
        let program = match answer.program {
            None => self.running.epoch.program,
            Some(program) => program,
        };
        first_bad(self.programs, program, &answer.values)
    }

    /// Applies an answer to the ticket that is out.
    pub(crate) fn settle(&mut self, answer: &Answer)
        requires is { IsState self.old }
        requires may { MayMake (driven_of self.old) Letter.C }
        requires known { is_known_for self.old.programs.now answer.now.program ≡ true }
        requires good { bad_in self.old.programs.now self.old.running.epoch.program answer.now ≡ None }
        requires room { HasAnswerRoom self.old.journal }
        ensures is { IsState self.new }
        ensures word { driven_of self.new ≡ with_given answer.now (driven_of self.old) }
    {
        let ticket = line_out(&self.running);
        let programs = self.programs;
        letters::settle(&mut self.running, &self.case, programs, answer);
        let epoch = line_begun(answer.program, &self.running);
        self.journal.put_answer(answer, &ticket, epoch);
        self.peak = self.peak.max(self.running.machine.cwnd());
    }
}

// A function of its own: its clause is a definition of three tests, which the proof of `next_letter` cites.
/// The first of three letters that may be made, or none.
pub(crate) fn first_letter(due: bool, may_take: bool, may_hear: bool) -> Option<Letter>
    ensures { result ≡ first_letter due may_take may_hear }
{
    if due {
        return Some(Letter::C);
    }
    if may_take {
        return Some(Letter::T);
    }
    if may_hear { Some(Letter::A) } else { None }
}

// A function of its own: the proof of `settle` cites its clause.
/// The line of the ticket that is out, which must be there, if it is answered now.
fn line_out(running: &Running) -> TicketLine
    requires { is_some (out_by running.now) ≡ true }
    ensures { line_out (out_by running.now) running.now.acks ≡ Some result }
{
    let Some(taken) = running.taken else {
        unreachable!()
    };
    TicketLine {
        told: running.content,
        taken,
        answered: running.acks,
        reply: Reply::Nothing,
    }
}

// A function of its own: the proof of `settle` cites its clause, in place of a case for each answer.
/// The line of the epoch that an answer began, if it is a change.
fn line_begun(program: Option<u32>, running: &Running) -> Option<EpochLine>
    ensures { result ≡ line_begun program running.now }
{
    match program {
        None => None,
        Some(_) => Some(EpochLine::of(&running.epoch, running.acks, running.machine.cwnd())),
    }
}

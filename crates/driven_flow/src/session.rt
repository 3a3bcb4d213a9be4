//! A session: the driven flows of cases, one after another, as an agent's frames drive them.
ghost use Rattle.std.specs.Prelude.{◌≡◌, ◌^◌, true, IfOk, OnOk, IfSome};
ghost use Rattle.feed_core.specs.FeedHolds.{HasShortFrame};

use crate::answer::Answer;
use crate::case::DrivenCase;
use crate::driven::DrivenFlow;
use crate::messages::message_of;
use crate::programs::{Programs, first_bad};
use crate::refusal::{Refusal, program_meant};
use crate::running::run_on;
use ccp_base::{Ack, NoMemory, Sequence};
use ccp_messages::{Message, Reason};
use feed_core::Answerer;
use reply_frames::Version;
use std::alloc::Global;
use std::collections::VecDeque;
use std::marker::Model;

/// The driven flows of cases, each to its end before the next begins, as the frames of an agent outside drive them.
#[derive(Drop)]
pub struct Session<'p> {
    programs: &'p Programs<'p>,
    ended: Sequence<DrivenFlow<'p>>,
    /// The flow that waits for the answer to its ticket.
    flow: Option<DrivenFlow<'p>>,
    /// The cases whose flows haven't begun.
    left: VecDeque<DrivenCase>,
}

impl<'p> Model for Session<'p> {
    ghost use Rattle.driven_flow.specs.Session.{SessionState};
    ghost use Rattle.portus_core.specs.contracts.program.Expr as expr;
    ghost use Rattle.std.specs.Coded.{codes};

    ghost Value = { SessionState };

    ghost coded = { Prim.hlevel (codes, expr.the_row.coded) };

    ghost use Rattle.driven_flow.specs.SessionHolds.{HasPrograms};

    ghost view = { λ s. record { programs = s.programs.now; ended = s.ended; flow = s.flow; left = s.left.items } };

    ghost invariant = { λ s. HasPrograms s.programs.now s.flow };
}

impl<'p> Session<'p> {
    ghost use Rattle.driven_flow.specs.Driven.{is_known};
    ghost use Rattle.driven_flow.specs.Session.{opening, first_frame, created, waiting, waits, running, refusal, turned};
    ghost use Rattle.driven_flow.specs.Session.{gone_on, stopped, with_ended, accepted, heard, hear, reported};
    ghost use Rattle.driven_flow.specs.SessionHolds.{IsAccepted, CanGoOn};

    /// A session of these programs, each with its number, and of these cases, before its first frame.
    pub fn begin(alloc: Global, programs: &'p Programs<'p>, cases: Sequence<DrivenCase>) -> Self
        ensures { result ≡ opening programs.now cases }
    {
        Session {
            programs,
            ended: Sequence::new(alloc),
            flow: None,
            left: VecDeque::from_vec(cases.into_vec()),
        }
    }

    /// The flows that are at their end, in order.
    pub fn ended(&self) -> &[DrivenFlow<'p>]
        ensures { result.now ≡ self.now.ended }
    {
        self.ended.as_slice()
    }

    /// The frame that is written before any frame is read: the Create of the first flow, None without a case.
    pub fn first_frame(&self) -> Option<(Message, Version)>
        ensures first { result ≡ first_frame self.now }
        ensures frame { HasShortFrame result }
    {
        self.create_next()
    }

    // A function of its own: the proof of `stop` cites its clause.
    /// The Create of the next flow, if there is one.
    fn create_next(&self) -> Option<(Message, Version)>
        ensures created { result ≡ created self.now.left }
        ensures frame { HasShortFrame result }
    {
        let case = self.left.front()?;
        let message = Message::Create {
            flow: case.flow,
            mss: case.link.mss,
            cwnd: case.initial_window(),
        };
        Some((message, Version::One))
    }

    /// The number of the flow that waits for a frame; None if all flows are at their end.
    pub fn waiting(&self) -> Option<u32>
        ensures { result ≡ waiting self.now }
    {
        match self.flow.as_ref() {
            Some(flow) => Some(flow.case().flow),
            None => Some(self.left.front()?.flow),
        }
    }

    /// Whether a flow waits for a frame.
    pub fn waits(&self) -> bool
        ensures { result ≡ waits self.now }
    {
        self.waiting().is_some()
    }

    /// The number of the program that runs, if a flow has begun.
    fn running(&self) -> Option<u32>
        ensures running { result ≡ running self.now }
        ensures known { IfSome result (λ program. is_known self.now.programs program ≡ true) }
    {
        Some(self.flow.as_ref()?.program())
    }

    /// Why a change or an update of the flow with this number is refused, if it is.
    pub fn refusal(&self, flow: u32, answer: &Answer) -> Option<Refusal>
        ensures { result ≡ refusal self.now flow answer.now }
    {
        if self.waiting() != Some(flow) {
            return Some(Refusal {
                reason: Reason::NoFlow,
                index: 0,
            });
        }
        let program = match program_meant(self.programs, self.running(), answer.program) {
            Ok(program) => program,
            Err(refusal) => return Some(refusal),
        };
        let place = first_bad(self.programs, program, &answer.values)?;
        Some(Refusal {
            reason: Reason::NoRegister,
            index: place,
        })
    }

    /// The answer to a message, if it has one. An Update or a Change that is not refused is applied, and the flow
    /// continues to its next ticket or to its end; every other message is ignored. If memory runs out, the flow may be
    /// between two tickets or dropped.
    pub fn answer(
        &mut self,
        alloc: Global,
        message: Message,
        version: Version,
    ) -> Result<Option<(Message, Version)>, NoMemory>
        ensures answered { IfOk result (λ answer. (answer, self.new) ≡ hear self.old message version) }
        ensures frame { IfOk result HasShortFrame }
        ensures programs { self.new.programs ≡ self.old.programs }
    {
        match message {
            Message::Update { flow, values } => {
                let answer = Answer {
                    program: None,
                    values,
                };
                self.apply(alloc, version, flow, &answer)
            }
            Message::Change {
                flow,
                program,
                values,
            } => {
                let answer = Answer {
                    program: Some(program),
                    values,
                };
                self.apply(alloc, version, flow, &answer)
            }
            other => {
                drop(other);
                Ok(None)
            }
        }
    }

    /// Applies a change or an update of the flow with this number, or refuses it in the version of its frame.
    fn apply(
        &mut self,
        alloc: Global,
        version: Version,
        flow: u32,
        answer: &Answer,
    ) -> Result<Option<(Message, Version)>, NoMemory>
        ensures heard { IfOk result (λ reply. (reply, self.new) ≡ heard self.old version flow answer.now) }
        ensures frame { IfOk result HasShortFrame }
        ensures programs { self.new.programs ≡ self.old.programs }
    {
        match self.refusal(flow, answer) {
            Some(Refusal { reason, index }) => {
                let message = Message::Refused {
                    flow,
                    reason,
                    index,
                };
                Ok(Some((message, version)))
            }
            None => self.accept(alloc, answer),
        }
    }

    /// Applies a change or an update that is accepted.
    fn accept(
        &mut self,
        alloc: Global,
        answer: &Answer,
    ) -> Result<Option<(Message, Version)>, NoMemory>
        requires { IsAccepted self.old answer.now }
        ensures accepted { IfOk result (λ reply. (reply, self.new) ≡ accepted self.old answer.now) }
        ensures frame { IfOk result HasShortFrame }
        ensures programs { self.new.programs ≡ self.old.programs }
    {
        self.turn(alloc, answer)?;
        self.go_on(alloc, answer)?;
        self.stop()
    }

    /// Begins the next flow with this change, where no flow waits for an answer.
    fn turn(&mut self, alloc: Global, answer: &Answer) -> Result<(), NoMemory>
        requires { IsAccepted self.old answer.now }
        ensures turned { OnOk result (self.new ≡ turned self.old answer.now) }
        ensures ready { OnOk result (CanGoOn self.new answer.now) }
        ensures programs { self.new.programs ≡ self.old.programs }
    {
        if self.flow.is_some() {
            return Ok(());
        }
        let Some(program) = answer.program else {
            unreachable!()
        };
        let Some(case) = self.left.pop_front() else {
            return Ok(());
        };
        match DrivenFlow::begin(alloc, case, self.programs, program, &answer.values) {
            Ok(flow) => {
                // No flow is there. Dropped in place, an Option of a flow would be proved here and not by its type.
                drop(self.flow.replace(flow));
                Ok(())
            }
            Err(error) => Err(error),
        }
    }

    /// Continues the flow with this answer, to its next ticket or to its end.
    fn go_on(&mut self, alloc: Global, answer: &Answer) -> Result<(), NoMemory>
        requires { CanGoOn self.old answer.now }
        ensures gone { OnOk result (self.new ≡ gone_on self.old answer.now) }
        ensures programs { self.new.programs ≡ self.old.programs }
    {
        match self.flow.as_mut() {
            None => Ok(()),
            Some(flow) => run_on(alloc, flow, answer),
        }
    }

    /// The message of the ticket that is out; without one the flow is at its end, and it is the Create of the next flow,
    /// if there is one.
    fn stop(&mut self) -> Result<Option<(Message, Version)>, NoMemory>
        ensures stopped { IfOk result (λ reply. (reply, self.new) ≡ stopped self.old) }
        ensures frame { IfOk result HasShortFrame }
        ensures programs { self.new.programs ≡ self.old.programs }
    {
        let ticket = self.reported();
        if ticket.is_some() {
            return Ok(ticket);
        }
        drop(ticket);
        self.end_flow()?;
        Ok(self.create_next())
    }

    /// The message of the ticket that is out, if one is.
    fn reported(&self) -> Option<(Message, Version)>
        ensures reported { result ≡ reported self.now.flow }
        ensures frame { HasShortFrame result }
    {
        let told = self.flow.as_ref()?.told_out()?;
        Some(message_of(told))
    }

    /// Puts the flow at the end of those that are at their end.
    fn end_flow(&mut self) -> Result<(), NoMemory>
        ensures ended { OnOk result (self.new ≡ with_ended self.old.flow self.old) }
        ensures programs { self.new.programs ≡ self.old.programs }
    {
        if let Some(flow) = self.flow.take() {
            self.ended.push(flow)?;
        }
        Ok(())
    }
}

/// A session takes any number of messages, and any of them may take memory.
impl<'p> Answerer for Session<'p> {
    ghost use Rattle.driven_flow.specs.Session.{hear, waits};

    ghost answer_of = { hear };

    ghost is_waiting = { waits };

    ghost room = { λ s. 2 ^ 32 };

    ghost Takes = { λ s message. Unit {0} };

    fn answer(
        &mut self,
        alloc: Global,
        message: Message,
        version: Version,
    ) -> Result<Option<(Message, Version)>, NoMemory> {
        Session::answer(self, alloc, message, version)
    }

    fn acknowledge(
        &mut self,
        version: Version,
        flow: u32,
        ack: &Ack,
        answer: &mut Option<(Message, Version)>,
    ) {
        let _ = (version, flow);
        let _ = ack;
        prove!(answer.is_none());
    }

    fn waits(&self) -> bool {
        Session::waits(self)
    }
}

//! The flows and programs of a datapath over frames by number, and the answer to each message.

ghost use Rattle.std.specs.Prelude.{◌≡◌, ℕ, ◌+◌, ◌<◌, ◌≤◌, None, Some, IfOk, OnOk};
ghost use Rattle.std.specs.Prelude.{OnErr, IsTrue, ◌↔◌, true, option_map, map, replicate, length, List};
ghost use Rattle.ccp_base.specs.Limits.{most_flows, most_messages};
ghost use Rattle.reg_code.specs.declared.checked.Checked.{Checked};
ghost use Rattle.feed_core.specs.Feed.{no_flows, there, refused, created, installed, is_too_wide, changed};
ghost use Rattle.feed_core.specs.Feed.{running_code, updated, answer_to_ack, handled};
ghost use Rattle.feed_core.specs.Feed.{answer_message, TakesMemory};
ghost use Rattle.feed_core.specs.FeedHolds.{feed_state, codes_in, AreFeedParts, IsFeed, HasShortFrame};

use crate::flow::Flow;
use ccp_base::{Ack, Fields, NoMemory, RunningEpoch};
use ccp_messages::{Message, Reason};
use code_verifier::verify;
use fold_machine::BadRegister;
use reg_code::{Checked, Code};
use reply_frames::Version;
use std::alloc::Global;

/// How many flows there can be.
pub const FLOWS: usize = 64;

/// How many programs there can be.
pub const PROGRAMS: usize = 16;

/// The most fields of a report in a frame of version 1.
const FIELDS_OF_ONE: usize = 32;

/// Flows 0 to 63 and programs 0 to 15, each if it exists, and how many messages there were.
#[derive(Drop)]
pub struct Tables {
    pub flows: Vec<Option<Flow>>,
    pub programs: Vec<Option<Checked>>,
    pub messages: u32,
}

/// `count` empty places.
fn places<T: Drop>(alloc: Global, count: usize) -> Result<Vec<Option<T>>, NoMemory>
    ensures { IfOk result (λ places. places.items ≡ replicate count None) }
{
    let mut places = Vec::new(alloc);
    while places.len() < count {
        places.push(None)?;
    }
    Ok(places)
}

/// The program of this number.
fn program_at(programs: &[Option<Checked>], number: u32) -> Option<&Checked>
    ensures { option_map (λ c. c.now.code) result ≡ there (codes_in programs.now) number }
{
    match programs.get(number as usize) {
        Some(Some(checked)) => Some(checked),
        _ => None,
    }
}

/// The program that a flow runs.
fn code_of(epoch: Option<RunningEpoch>, programs: &[Option<Checked>]) -> Option<&Checked>
    ensures { option_map (λ c. c.now.code) result ≡ running_code epoch (codes_in programs.now) }
{
    program_at(programs, epoch?.program)
}

/// Whether a report of the code has no frame in the version.
fn is_too_wide(version: Version, code: &Checked) -> bool
    ensures { result ≡ is_too_wide version code.now.code }
{
    match version {
        Version::One => code.code().reports().len() > FIELDS_OF_ONE,
        Version::Two => false,
    }
}

/// The answer that refuses a frame, in the frame's version.
fn refusal(version: Version, flow: u32, reason: Reason, index: u32) -> Option<(Message, Version)>
    ensures { result ≡ Some (Message.Refused flow reason index, version) }
{
    Some((
        Message::Refused {
            flow,
            reason,
            index,
        },
        version,
    ))
}

/// Puts the answer that refuses a frame, in the frame's version, into `answer`.
#[inline(never)]
fn put_refusal(
    version: Version,
    flow: u32,
    reason: Reason,
    index: u32,
    answer: &mut Option<(Message, Version)>,
)
    ensures { answer.new ≡ Some (Message.Refused flow reason index, version) }
{
    *answer = refusal(version, flow, reason, index);
}

impl Tables {
    /// No flows and no programs.
    pub fn new(alloc: Global) -> Result<Tables, NoMemory>
        ensures state { IfOk result (λ tables. feed_state tables ≡ no_flows) }
        ensures is_feed { IfOk result (λ tables. IsFeed (feed_state tables)) }
    {
        Ok(Tables {
            flows: places(alloc, FLOWS)?,
            programs: places(alloc, PROGRAMS)?,
            messages: 0,
        })
    }

    /// The answer to the next message, if it has one; the message is counted. Only a Create of a flow that doesn't
    /// exist takes memory. If memory runs out nothing has changed.
    pub fn frame(
        &mut self,
        alloc: Global,
        message: Message,
        version: Version,
    ) -> Result<Option<(Message, Version)>, NoMemory>
        requires few { self.old.messages < most_messages }
        requires is_feed { IsFeed (feed_state self.old) }
        ensures answered { IfOk result (λ answer.
            (answer, feed_state self.new) ≡ answer_message (feed_state self.old) message version) }
        ensures unchanged { OnErr result (feed_state self.new ≡ feed_state self.old) }
        ensures memory { OnErr result (TakesMemory (feed_state self.old) message) }
        ensures counted { OnOk result (self.new.messages ≡ self.old.messages + 1) }
        ensures is_feed { IsFeed (feed_state self.new) }
        ensures frame { IfOk result HasShortFrame }
    {
        let answer = self.handle(alloc, message, version)?;
        self.messages += 1;
        Ok(answer)
    }

    /// The answer to a message that isn't counted yet.
    fn handle(
        &mut self,
        alloc: Global,
        message: Message,
        version: Version,
    ) -> Result<Option<(Message, Version)>, NoMemory>
        requires few { self.old.messages < most_messages }
        requires is_feed { IsFeed (feed_state self.old) }
        ensures handled { IfOk result (λ answer.
            (answer, feed_state self.new) ≡ handled (feed_state self.old) message version) }
        ensures messages { self.new.messages ≡ self.old.messages }
        ensures unchanged { OnErr result (feed_state self.new ≡ feed_state self.old) }
        ensures memory { OnErr result (TakesMemory (feed_state self.old) message) }
    {
        match message {
            Message::Create { flow, cwnd, .. } => self.create(alloc, version, flow, cwnd),
            Message::Install {
                flow,
                program,
                code,
            } => Ok(self.install(version, flow, program, code)),
            Message::Change {
                flow,
                program,
                values,
            } => Ok(self.change(version, flow, program, &values)),
            Message::Update { flow, values } => Ok(self.update(version, flow, &values)),
            Message::Ack { flow, ack } => {
                let mut answer = None;
                self.ack(version, flow, &ack, &mut answer);
                Ok(answer)
            }
            Message::Measure(_) | Message::Fault(_) | Message::Refused { .. } => Ok(None),
        }
    }

    /// Makes a flow.
    fn create(
        &mut self,
        alloc: Global,
        version: Version,
        n: u32,
        cwnd: u64,
    ) -> Result<Option<(Message, Version)>, NoMemory>
        requires is_feed { IsFeed (feed_state self.old) }
        ensures handled { IfOk result (λ answer.
            (answer, feed_state self.new) ≡ created (feed_state self.old) version n cwnd) }
        ensures messages { self.new.messages ≡ self.old.messages }
        ensures unchanged { OnErr result (feed_state self.new ≡ feed_state self.old) }
        ensures memory { OnErr result ((n < most_flows) × (there (feed_state self.old).flows n ≡ None)) }
    {
        let at = n as usize;
        if at >= FLOWS {
            return Ok(refusal(version, n, Reason::FlowAbove, 0));
        }
        if self.flows[at].is_some() {
            return Ok(refusal(version, n, Reason::FlowExists, 0));
        }
        self.flows[at] = Some(Flow::new(alloc, version, cwnd)?);
        Ok(None)
    }

    /// Keeps a code that is accepted.
    fn install(
        &mut self,
        version: Version,
        n: u32,
        program: u32,
        code: Code,
    ) -> Option<(Message, Version)>
        requires is_feed { IsFeed (feed_state self.old) }
        ensures handled { (result, feed_state self.new) ≡ installed (feed_state self.old) version n program code }
        ensures messages { self.new.messages ≡ self.old.messages }
    {
        let at = program as usize;
        if at >= PROGRAMS {
            drop(code);
            return refusal(version, n, Reason::ProgramAbove, program);
        }
        if program_at(self.programs.as_slice(), program).is_some() {
            drop(code);
            return refusal(version, n, Reason::ProgramExists, program);
        }
        match verify(code) {
            Err(rejected) => refusal(version, n, Reason::NotAccepted, rejected.index),
            Ok(checked) => {
                self.programs[at] = Some(checked);
                None
            }
        }
    }

    /// Starts a program on a flow.
    fn change(
        &mut self,
        version: Version,
        n: u32,
        program: u32,
        values: &Fields,
    ) -> Option<(Message, Version)>
        requires few { self.old.messages < most_messages }
        requires is_feed { IsFeed (feed_state self.old) }
        ensures handled { (result, feed_state self.new) ≡ changed (feed_state self.old) version n program values.now }
        ensures messages { self.new.messages ≡ self.old.messages }
    {
        let at = n as usize;
        if at >= FLOWS {
            return refusal(version, n, Reason::NoFlow, 0);
        }
        let Some(flow) = &mut self.flows[at] else {
            return refusal(version, n, Reason::NoFlow, 0);
        };
        if program as usize >= PROGRAMS {
            return refusal(version, n, Reason::ProgramAbove, program);
        }
        let Some(code) = program_at(self.programs.as_slice(), program) else {
            return refusal(version, n, Reason::NoProgram, program);
        };
        if is_too_wide(flow.version, code) {
            return refusal(version, n, Reason::TooWide, program);
        }
        match flow.change(program, code, values) {
            Ok(()) => None,
            Err(BadRegister(place)) => refusal(version, n, Reason::NoRegister, place),
        }
    }

    /// Writes values of the program that was started on a flow.
    fn update(&mut self, version: Version, n: u32, values: &Fields) -> Option<(Message, Version)>
        requires is_feed { IsFeed (feed_state self.old) }
        ensures handled { (result, feed_state self.new) ≡ updated (feed_state self.old) version n values.now }
        ensures messages { self.new.messages ≡ self.old.messages }
    {
        let at = n as usize;
        if at >= FLOWS {
            return refusal(version, n, Reason::NoFlow, 0);
        }
        let Some(flow) = &mut self.flows[at] else {
            return refusal(version, n, Reason::NoFlow, 0);
        };
        let Some(code) = code_of(flow.epoch, self.programs.as_slice()) else {
            return refusal(version, n, Reason::NoProgram, 0);
        };
        match flow.update(code, values) {
            Ok(()) => None,
            Err(BadRegister(place)) => refusal(version, n, Reason::NoRegister, place),
        }
    }

    /// Runs an acknowledgement of a flow, and puts the answer, if there is one, into `answer`.
    fn ack(&mut self, version: Version, n: u32, ack: &Ack, answer: &mut Option<(Message, Version)>)
        requires few { self.old.messages < most_messages }
        requires is_feed { IsFeed (feed_state self.old) }
        requires none { answer.old ≡ None }
        ensures handled { (answer.new, feed_state self.new)
            ≡ answer_to_ack (feed_state self.old) version n ack.entry.now }
        ensures messages { self.new.messages ≡ self.old.messages }
    {
        let at = n as usize;
        if at >= FLOWS {
            put_refusal(version, n, Reason::NoFlow, 0, answer);
            return;
        }
        let Some(flow) = &mut self.flows[at] else {
            put_refusal(version, n, Reason::NoFlow, 0, answer);
            return;
        };
        let Some(code) = code_of(flow.epoch, self.programs.as_slice()) else {
            flow.pass(ack);
            return;
        };
        let own = flow.version;
        flow.ack(n, code, ack, own, answer);
    }

    /// Puts the answer to the next message, an acknowledgement, into `answer`, if it has one; the message is counted.
    pub fn acknowledge(
        &mut self,
        version: Version,
        n: u32,
        ack: &Ack,
        answer: &mut Option<(Message, Version)>,
    )
        requires few { self.old.messages < most_messages }
        requires is_feed { IsFeed (feed_state self.old) }
        requires none { answer.old ≡ None }
        ensures answered { (answer.new, feed_state self.new)
            ≡ answer_message (feed_state self.old) (Message.Ack n ack.entry.now) version }
        ensures counted { self.new.messages ≡ self.old.messages + 1 }
        ensures is_feed { IsFeed (feed_state self.new) }
        ensures frame { HasShortFrame answer.new }
    {
        self.ack(version, n, ack, answer);
        self.messages += 1;
    }
}

//! The agents Reno and CUBIC as one type: its replies, and the values that each reply writes.
ghost use Rattle.std.specs.Prelude.{◌≡◌, ◌++◌, ◌+◌, ◌<◌, ◌≤◌, ◌↔◌, IsTrue, length};
ghost use Rattle.agent_core.specs.Agents.{opening_change, replied, course_of, mss_of, cap_of, segment_of, window_pair, control_pair, values_of};
ghost use Rattle.agent_core.specs.Kinds.{kind_of, agent_name};
ghost use Rattle.std.specs.Option.{ForSome};
ghost use Rattle.ccp_base.specs.Limits.{most_controls};
ghost use Rattle.reply_frames.specs.ValueBytes.{AreTargets};

use crate::kind::Kind;
use crate::same::same_agent;
use ccp_base::{Course, FieldReg, Fields, Reply, Told};
use cubic_agent::Cubic;
use reno_agent::Reno;

/// A congestion control agent of one flow.
#[derive(Clone, Copy, PartialEq, Eq)]
pub enum Agent {
    Reno(Reno),
    Cubic(Cubic),
}

impl Agent {
    /// The change that starts a flow.
    pub fn begin(&self) -> Reply
        ensures { result ≡ opening_change self.now }
    {
        match self {
            Agent::Reno(reno) => reno.begin(),
            Agent::Cubic(cubic) => cubic.begin(),
        }
    }

    /// Replies to a report or a fault notice.
    pub fn reply(&mut self, told: &Told) -> Reply
        ensures turn { (self.new, result) ≡ replied self.old told.now }

        // The agent keeps its programs.
        ensures ss { (course_of self.new).ss ≡ (course_of self.old).ss }
        ensures ca { (course_of self.new).ca ≡ (course_of self.old).ca }
    {
        match self {
            Agent::Reno(reno) => reno.reply(told),
            Agent::Cubic(cubic) => cubic.reply(told),
        }
    }

    /// Whether two agents are equal.
    pub fn same(&self, other: &Agent) -> bool
        ensures { IsTrue result ↔ (self.now ≡ other.now) }
    {
        same_agent(self, other)
    }

    /// The agent's kind.
    pub fn kind(&self) -> Kind
        ensures { result ≡ kind_of self.now }
    {
        match self {
            Agent::Reno(_) => Kind::Reno,
            Agent::Cubic(_) => Kind::Cubic,
        }
    }

    /// The name of the agent's kind.
    pub fn name(&self) -> &'static str
        ensures { result.now ≡ agent_name self.now }
    {
        self.kind().name()
    }

    /// The agent's programs, and how far it went with them.
    pub fn course(&self) -> Course
        ensures { result ≡ course_of self.now }
    {
        match self {
            Agent::Reno(reno) => reno.course(),
            Agent::Cubic(cubic) => cubic.course(),
        }
    }

    /// The segment's size, in bytes.
    pub fn mss(&self) -> u32
        ensures { result ≡ mss_of self.now }
    {
        match self {
            Agent::Reno(reno) => reno.mss(),
            Agent::Cubic(cubic) => cubic.mss(),
        }
    }

    /// What a reply writes: nothing, the window, or for a change the window and then the cap and the segment's
    /// size, if the new program has control variables for them.
    pub fn values(&self, reply: &Reply) -> Fields
        ensures values { result ≡ values_of self.now reply.now }
        ensures targets { AreTargets result }
        ensures few { length result ≤ 3 }
    {
        match *reply {
            Reply::Nothing => Fields::new(),
            Reply::Update(cwnd) => window(cwnd),
            Reply::Change { program, cwnd, cap } => {
                let course = self.course();
                let mut values = window(cwnd);
                put_control(&mut values, cap_of(&course, program), cap);
                put_control(
                    &mut values,
                    segment_of(&course, program),
                    u64::from(self.mss()),
                );
                values
            }
        }
    }
}

/// The window alone.
fn window(cwnd: u64) -> Fields
    ensures values { result ≡ window_pair cwnd }
    ensures targets { AreTargets result }
{
    let mut values = Fields::new();
    values.push(FieldReg::Cwnd, cwnd);
    values
}

/// Puts a control variable's value at the end, if there is such a variable.
fn put_control(values: &mut Fields, control: Option<u32>, value: u64)
    requires few { length values.old < 3 }
    requires below { ForSome control (λ n. n < most_controls) }
    requires targets { AreTargets values.old }
    ensures values { values.new ≡ values.old ++ control_pair control value }
    ensures targets { AreTargets values.new }
    ensures few { length values.new ≤ length values.old + 1 }
{
    if let Some(number) = control {
        values.push(FieldReg::Control(number as u8), value);
    }
}

/// Where a program keeps the window's cap; None if it is neither of the agent's.
fn cap_of(course: &Course, program: u32) -> Option<u32>
    ensures value { result ≡ cap_of course.now program }
    ensures below { ForSome result (λ n. n < most_controls) }
{
    if course.ss.number == program {
        course.ss.look.cap
    } else if course.ca.number == program {
        course.ca.look.cap
    } else {
        None
    }
}

/// Where a program keeps the segment's size; None if it is neither of the agent's.
fn segment_of(course: &Course, program: u32) -> Option<u32>
    ensures value { result ≡ segment_of course.now program }
    ensures below { ForSome result (λ n. n < most_controls) }
{
    if course.ss.number == program {
        course.ss.look.mss
    } else if course.ca.number == program {
        course.ca.look.mss
    } else {
        None
    }
}

//! The course of an agent: its two programs, the opening from the initial window (RFC 5681), and its changes.
ghost use Rattle.std.specs.Prelude.{◌≡◌};
ghost use Rattle.ccp_base.specs.Course.{first_course, role_of, course_after, change_to, initial_segments, opening_of};

use crate::exchange::Reply;
use crate::look::Role;

/// Which of its two programs an agent has started last.
#[derive(Clone, Copy, PartialEq, Eq)]
pub enum Phase {
    SlowStart,
    /// Congestion avoidance.
    Avoidance,
}

/// The two programs of an agent, which of them it started last, and how often it changed.
#[derive(Clone, Copy, PartialEq, Eq)]
pub struct Course {
    /// The program of slow start.
    pub ss: Role,
    /// The program of congestion avoidance.
    pub ca: Role,
    pub mode: Phase,
    /// How many changes of program the agent has sent after the opening one; it stops at 2^64-1.
    pub epoch: u64,
}

impl Course {
    /// The course of an agent before its first report or notice.
    pub fn new(ss: Role, ca: Role) -> Self
        ensures { result ≡ first_course ss ca }
    {
        Course {
            ss,
            ca,
            mode: Phase::SlowStart,
            epoch: 0,
        }
    }

    /// The program of a mode.
    pub fn role(&self, mode: Phase) -> Role
        ensures { result ≡ role_of mode self.now }
    {
        match mode {
            Phase::SlowStart => self.ss,
            Phase::Avoidance => self.ca,
        }
    }

    /// The change that an agent begins with: slow start from the initial window, without a cap. `mss` is the
    /// segment's size in bytes.
    pub fn opening(&self, mss: u32) -> Reply
        ensures { result ≡ opening_of mss self.now }
    {
        let cwnd = initial_segments(mss).saturating_mul(u64::from(mss));
        Reply::Change {
            program: self.ss.number,
            cwnd,
            cap: u64::MAX,
        }
    }

    /// Changes to the program of a mode, with its window and cap in bytes.
    pub fn change(&mut self, mode: Phase, cwnd: u64, cap: u64) -> Reply
        ensures course { self.new ≡ course_after mode self.old }
        ensures reply { result ≡ change_to mode self.old cwnd cap }
    {
        self.mode = mode;
        self.epoch = self.epoch.saturating_add(1);
        Reply::Change {
            program: self.role(mode).number,
            cwnd,
            cap,
        }
    }
}

/// The number of segments of the initial window, by the segment's size in bytes (RFC 5681, section 3.1).
pub fn initial_segments(mss: u32) -> u64
    ensures { result ≡ initial_segments mss }
{
    if mss > 2190 {
        2
    } else if mss > 1095 {
        3
    } else {
        4
    }
}

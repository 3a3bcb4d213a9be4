//! What a datapath and an agent exchange about a flow: reports, fault notices and replies.
use crate::arithmetic::FaultKind;
use crate::sequence::Sequence;
use crate::values::Values;

/// What a program reports of a span of its flow's acknowledgements.
#[derive(Clone, Copy, PartialEq, Eq, Debug)]
pub struct Report {
    pub flow: u32,
    pub program: u32,
    /// How many changes of program the flow had before the one that started this program.
    pub epoch: u32,
    /// How many acknowledgements of the flow came before the span.
    pub first: u64,
    /// How many acknowledgements of the flow there were at its end, the reporting one included.
    pub end: u64,
    /// The time of the reporting acknowledgement, in microseconds.
    pub now: u64,
    /// The congestion window after the reporting acknowledgement, in bytes.
    pub cwnd: u64,
    /// The pacing rate after it, in bytes a second.
    pub rate: u64,
    /// The report's fields in order of declaration.
    pub fields: Values,
}

/// That an acknowledgement faulted, and so stopped its program.
#[derive(Clone, Copy, PartialEq, Eq, Debug)]
pub struct Notice {
    pub flow: u32,
    pub program: u32,
    pub epoch: u32,
    /// The number of the faulting acknowledgement among those of its flow, from 0.
    pub at: u64,
    pub kind: FaultKind,
    /// The number of the faulting instruction in the program's code, from 0.
    pub index: u16,
    /// The time of the faulting acknowledgement, in microseconds.
    pub now: u64,
    /// The congestion window, in bytes, which the fault leaves as it was.
    pub cwnd: u64,
}

/// What an agent gets about a flow.
#[derive(Clone, Copy, PartialEq, Eq, Debug)]
pub enum Told {
    Report(Report),
    Fault(Notice),
}

impl Told {
    ghost use Rattle.std.specs.Prelude.{◌≡◌};
    ghost use Rattle.ccp_base.specs.Course.{told_epoch};

    /// The epoch of the report or notice.
    pub fn epoch(&self) -> u64
        ensures { result ≡ told_epoch self.now }
    {
        match self {
            Told::Report(report) => u64::from(report.epoch),
            Told::Fault(notice) => u64::from(notice.epoch),
        }
    }
}

/// What an agent replies to a report or notice.
#[derive(Clone, Copy, PartialEq, Eq, Debug)]
pub enum Reply {
    Nothing,
    /// The new congestion window, in bytes.
    Update(u64),
    /// The program to start, with its congestion window and the window's cap, in bytes.
    Change { program: u32, cwnd: u64, cap: u64 },
}

/// Reports in the order in which they were made.
pub type Reports = Sequence<Report>;

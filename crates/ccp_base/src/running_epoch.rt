//! The epoch that runs: what a change makes of it, and what its reports and fault notices say.
ghost use Rattle.std.specs.Prelude.{◌≡◌, ◌+◌, ◌<◌, ◌^◌};
ghost use Rattle.ccp_base.specs.RunningEpochs.{opening_epoch, next_epoch, epochs_in, epoch_after, report_at};
ghost use Rattle.ccp_base.specs.RunningEpochs.{reported_epoch, notice_at};

use crate::arithmetic::FaultKind;
use crate::exchange::{Notice, Report};
use crate::values::Values;

/// The epoch that runs.
#[derive(Clone, Copy)]
pub struct RunningEpoch {
    /// Its program, by its number.
    pub program: u32,
    /// How many epochs of the flow ended before it.
    pub number: u32,
    /// The number of acknowledgements at which the unreported span begins.
    pub first: u64,
}

impl RunningEpoch {
    /// A flow's first epoch, which this program begins after `acks` acknowledgements.
    pub fn opening(program: u32, acks: u64) -> RunningEpoch
        ensures { result ≡ opening_epoch program acks }
    {
        RunningEpoch {
            program,
            number: 0,
            first: acks,
        }
    }

    /// The epoch that a change to this program begins after `acks` acknowledgements.
    pub fn next(&self, program: u32, acks: u64) -> RunningEpoch
        requires { self.now.number + 1 < 2 ^ 32 }
        ensures { result ≡ next_epoch program acks self.now }
    {
        RunningEpoch {
            program,
            number: self.number + 1,
            first: acks,
        }
    }

    /// The epoch after this one, or a flow's first one, which this program begins after `acks` acknowledgements.
    pub fn after(running: Option<RunningEpoch>, program: u32, acks: u64) -> RunningEpoch
        requires { epochs_in running < 2 ^ 32 }
        ensures { result ≡ epoch_after running program acks }
    {
        match running {
            Some(epoch) => epoch.next(program, acks),
            None => RunningEpoch::opening(program, acks),
        }
    }

    /// The report of the unreported span, which the acknowledgement at `now` microseconds ends. There are `end`
    /// acknowledgements with it.
    #[inline(always)]
    pub fn report(
        &mut self,
        flow: u32,
        end: u64,
        now: u64,
        cwnd: u64,
        rate: u64,
        fields: &Values,
    ) -> Report
        ensures report { result ≡ report_at self.old flow end now cwnd rate fields.now }
        ensures span { self.new ≡ reported_epoch end self.old }
    {
        let first = self.first;
        self.first = end;
        Report {
            flow,
            program: self.program,
            epoch: self.number,
            first,
            end,
            now,
            cwnd,
            rate,
            fields: *fields,
        }
    }

    /// The notice that the acknowledgement at `now` microseconds, with `at` others before it, had a fault of this kind
    /// at the instruction with this index.
    pub fn notice(
        &self,
        flow: u32,
        at: u64,
        now: u64,
        cwnd: u64,
        kind: FaultKind,
        index: u16,
    ) -> Notice
        ensures { result ≡ notice_at self.now flow at now cwnd kind index }
    {
        Notice {
            flow,
            program: self.program,
            epoch: self.number,
            at,
            kind,
            index,
            now,
            cwnd,
        }
    }
}

//! An acknowledgement: its program's source gives its outcome, which is recorded.
ghost use Rattle.std.specs.Prelude.{◌≡◌, ◌<◌, OnOk};
ghost use Rattle.portus_core.specs.Epoch.{reported, failed};
ghost use Rattle.portus_core.specs.OneAcknowledgement.{IsEnvOf};
ghost use Rattle.portus_core.specs.ProgramForm.{form_of};
ghost use Rattle.flow_core.specs.declared.letter.Letter.TheVariants.{A};
ghost use Rattle.source_flow.specs.SourceStates.{outcome_met, IsSourceSound};
ghost use Rattle.source_flow.specs.SourceMoves.{Makes};
ghost use Rattle.source_flow.specs.SourceSteps.{CanRecord, HasRun, RecordsOutcome};

use crate::flow_account::SourceFault;
use crate::source_case::SourceCase;
use crate::state::{Present, State};
use ccp_base::{Ack, FaultKind, NoMemory, Place, Values};
use portus_core::{Effect, Program};

impl Present {
    /// What the epoch's program makes of an acknowledgement; None if and only if the epoch was stopped. The env becomes
    /// the one after it.
    fn run(&mut self, program: &Program, ack: &Ack, room: bool) -> Option<Effect>
        requires shape { IsEnvOf (form_of program.now) self.old.env }
        requires spare { IsEnvOf (form_of program.now) self.old.spare }
        ensures { HasRun (form_of program.now) ack.entry.now room self.old self.new result }
    {
        if self.is_stopped {
            return None;
        }
        let effect = program.run(&mut self.env, &mut self.spare, ack, room);
        self.is_stopped = matches!(effect, Effect::Fault(_, _));
        Some(effect)
    }
}

impl State {
    /// Takes the link's next acknowledgement.
    pub(crate) fn hear(&mut self, source: &SourceCase<'_>) -> Result<(), NoMemory>
        requires sound { IsSourceSound source.now self.old }
        requires left { self.old.acks < source.now.case.now.acks }
        ensures sound { OnOk result (IsSourceSound source.now self.new) }
        ensures at { OnOk result (Makes source.now A self.old self.new) }
    {
        let ack = self.link.next(self.present.env.cwnd);
        let room = self.waiting.len() < source.case.slots as usize;
        let program = source.program(self.present.epoch.program);
        let effect = self.present.run(program, &ack, room);
        self.record_outcome(source.case.flow, &ack, effect)?;
        self.acks += 1;
        self.time = ack.now;
        Ok(())
    }

    /// Records the outcome of an acknowledgement.
    fn record_outcome(
        &mut self,
        flow: u32,
        ack: &Ack,
        effect: Option<Effect>,
    ) -> Result<(), NoMemory>
        requires { CanRecord self.old }
        ensures { OnOk result
            (RecordsOutcome flow self.old self.new ack.entry.now (outcome_met self.old.present.spare.fields effect)) }
    {
        match effect {
            None | Some(Effect::Quiet) => Ok(()),
            Some(Effect::Reported) => self.record_report(flow, ack),
            Some(Effect::Held) => {
                self.held += 1;
                Ok(())
            }
            Some(Effect::Fault(kind, place)) => self.record_fault(flow, ack, kind, place),
        }
    }

    // Not inlined, so that an acknowledgement without a report doesn't fill the report's places.
    /// Records a report with the fields that were left for it.
    #[inline(never)]
    fn record_report(&mut self, flow: u32, ack: &Ack) -> Result<(), NoMemory>
        requires { CanRecord self.old }
        ensures { OnOk result
            (RecordsOutcome flow self.old self.new ack.entry.now (reported self.old.present.spare.fields)) }
    {
        let fields = Values::from_slice(self.present.spare.fields.as_slice());
        let cwnd = self.present.env.cwnd;
        let rate = self.present.env.rate;
        let epoch = &mut self.present.epoch;
        let end = u64::from(self.acks) + 1;
        let report = epoch.report(flow, end, ack.now, cwnd, rate, &fields);
        self.waiting.push_back(report)?;
        Ok(())
    }

    /// Records a fault of this kind at this place, and leaves its notice untold. A place has no index.
    #[inline(never)]
    fn record_fault(
        &mut self,
        flow: u32,
        ack: &Ack,
        kind: FaultKind,
        place: Place,
    ) -> Result<(), NoMemory>
        requires { CanRecord self.old }
        ensures { OnOk result (RecordsOutcome flow self.old self.new ack.entry.now (failed (kind, place))) }
    {
        let epoch = self.present.epoch;
        let at = u64::from(self.acks);
        let cwnd = self.present.env.cwnd;
        self.faults.push(SourceFault {
            program: epoch.program,
            epoch: epoch.number,
            at,
            kind,
            place,
            time: ack.now,
            cwnd,
        })?;
        self.untold = Some(epoch.notice(flow, at, ack.now, cwnd, kind, 0));
        Ok(())
    }
}

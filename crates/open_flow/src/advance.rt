//! An acknowledgement: it is counted, and run if a program runs.
ghost use Rattle.std.specs.Prelude.{◌≡◌, ◌+◌, ◌<◌, Some, None, ◌∷◌, [], ◌++◌};
ghost use Rattle.open_flow.specs.OpenCells.{ran_at, AnswersAck};
ghost use Rattle.open_flow.specs.States.{cell_of, world_of, step_of, running_step, IsOpen};

use crate::account::run_ack;
use crate::letter::OpenLetter;
use crate::library::built_at;
use crate::state::State;
use ccp_base::RunningEpoch;
use fold_machine::{Acked, Steps};
use std::sync::ledger::Ledger;

impl State {
    /// The epoch that runs; None if and only if no change came yet.
    // for the prover: a match on the field alone says nothing of the state after the word
    fn running_epoch(&self) -> Option<RunningEpoch>
        requires { IsOpen self.now }
        ensures kept { result ≡ self.now.running }
        ensures present { step_of result ≡ running_step (world_of self.now).present }
    {
        self.running
    }

    /// Takes the link's next acknowledgement. It is only counted before the first change, and then run.
    pub(crate) fn advance<L: Ledger>(&mut self, steps: &mut Steps<L>) -> Option<Acked>
        requires open_state { IsOpen self.old }
        requires left { self.old.acks < self.old.case.acks }
        ensures open_state { IsOpen self.new }
        ensures case { self.new.case ≡ self.old.case }
        ensures entries { self.new.entries ≡ self.old.entries }
        ensures word { self.new.word.items ≡ self.old.word.items ++ OpenLetter.A ∷ [] }
        ensures answered { AnswersAck (cell_of self.old) result }
        ensures steps { steps.new ≡ steps.old + ran_at (cell_of self.old) }
    {
        match self.running_epoch() {
            Some(epoch) => Some(self.run_next(epoch, steps)),
            None => {
                self.count_next();
                None
            }
        }
    }

    /// Takes the link's next acknowledgement, which is only counted.
    fn count_next(&mut self)
        requires open_state { IsOpen self.old }
        requires left { self.old.acks < self.old.case.acks }
        requires none { self.old.running ≡ None }
        ensures open_state { IsOpen self.new }
        ensures case { self.new.case ≡ self.old.case }
        ensures entries { self.new.entries ≡ self.old.entries }
        ensures word { self.new.word.items ≡ self.old.word.items ++ OpenLetter.A ∷ [] }
        ensures answered { (world_of self.old).present ≡ None }
    {
        let window = self.machine.cwnd();
        let ack = self.link.next(window);
        self.acks += 1;
        self.time = ack.now;
        self.word.push(OpenLetter::A);
    }

    /// Takes the link's next acknowledgement, which is run by this epoch's program.
    fn run_next<L: Ledger>(&mut self, epoch: RunningEpoch, steps: &mut Steps<L>) -> Acked
        requires open_state { IsOpen self.old }
        requires left { self.old.acks < self.old.case.acks }
        requires running { self.old.running ≡ Some epoch }
        ensures open_state { IsOpen self.new }
        ensures case { self.new.case ≡ self.old.case }
        ensures entries { self.new.entries ≡ self.old.entries }
        ensures word { self.new.word.items ≡ self.old.word.items ++ OpenLetter.A ∷ [] }
        ensures answered { AnswersAck (cell_of self.old) (Some result) }
        ensures steps { steps.new ≡ steps.old + ran_at (cell_of self.old) }
    {
        let window = self.machine.cwnd();
        let ack = self.link.next(window);
        let Some(built) = built_at(self.entries.as_slice(), epoch.program) else {
            unreachable!()
        };
        let acked = run_ack(&mut self.machine, &built.code, &ack, steps);
        let flow = self.case.flow;
        let mut epoch = epoch;
        self.account
            .record_outcome(&mut epoch, flow, self.acks, &self.machine, &ack, acked);
        self.running = Some(epoch);
        self.acks += 1;
        self.time = ack.now;
        self.word.push(OpenLetter::A);
        acked
    }
}

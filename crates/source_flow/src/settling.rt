//! The answer to the ticket that is out is applied.
ghost use Rattle.std.specs.Prelude.{◌≡◌, ◌+◌, ◌++◌, ◌∷◌, [], ◌<◌, Some, None, IfOk, OnOk, length};
ghost use Rattle.ccp_base.specs.Limits.{most_acks};
ghost use Rattle.ccp_base.specs.FieldReg.{first_bad_pair};
ghost use Rattle.portus_core.specs.Epoch.{with_values, declared_env};
ghost use Rattle.portus_core.specs.OneAcknowledgement.{IsEnvOf};
ghost use Rattle.portus_core.specs.ProgramForm.{form_of};
ghost use Rattle.flow_core.specs.declared.letter.Letter.TheVariants.{C};
ghost use Rattle.source_flow.specs.SourceStates.{form_at, IsSourceSound};
ghost use Rattle.source_flow.specs.SourceMoves.{Makes};
ghost use Rattle.source_flow.specs.SourceSteps.{answered_line, AreGood, Changed, Obeys};

use crate::source_case::SourceCase;
use crate::state::{Present, State};
use agent_core::Agent;
use ccp_base::{Fields, NoMemory, Reply};
use flow_core::{EpochLine, Issued, TicketLine};
use portus_core::{Env, Program, StartFault};
use std::alloc::Global;

/// The env that an epoch starts with. The program has each control variable that the values name.
pub(crate) fn start_env(
    alloc: Global,
    program: &Program,
    values: &Fields,
    cwnd: u64,
    rate: u64,
    now: u64,
) -> Result<Env, NoMemory>
    requires good { first_bad_pair (length (form_of program.now).controls) values.now ≡ None }
    ensures env { IfOk result (λ env. env ≡ with_values values.now (declared_env (form_of program.now) cwnd rate now)) }
    ensures shape { IfOk result (λ env. IsEnvOf (form_of program.now) env) }
{
    match program.start(alloc, values, cwnd, rate, now) {
        Ok(env) => Ok(env),
        Err(StartFault::NoMemory(error)) => Err(error),
        Err(StartFault::BadRegister(_)) => unreachable!(),
    }
}

impl State {
    /// Applies the agent's answer to the ticket that is out.
    pub(crate) fn answer(&mut self, alloc: Global, source: &SourceCase<'_>) -> Result<(), NoMemory>
        requires sound { IsSourceSound source.now self.old }
        ensures sound { OnOk result (IsSourceSound source.now self.new) }
        ensures at { OnOk result (Makes source.now C self.old self.new) }
    {
        match self.out {
            Some(issued) => self.settle(alloc, source, &issued),
            None => Ok(()),
        }
    }

    // A function of its own: its clauses name the ticket, which `answer` finds by a match.
    /// Applies the agent's answer to this ticket, which is out.
    fn settle(
        &mut self,
        alloc: Global,
        source: &SourceCase<'_>,
        issued: &Issued,
    ) -> Result<(), NoMemory>
        requires sound { IsSourceSound source.now self.old }
        requires out { self.old.out ≡ Some issued.now }
        ensures sound { OnOk result (IsSourceSound source.now self.new) }
        ensures at { OnOk result (Makes source.now C self.old self.new) }
    {
        let before = self.agent;
        let reply = self.agent.reply(&issued.told);
        self.record_answer(issued, reply)?;
        self.apply_reply(alloc, source, &before, &reply)?;
        Ok(())
    }

    /// Records this answer to the ticket that is out.
    fn record_answer(&mut self, issued: &Issued, reply: Reply) -> Result<(), NoMemory>
        ensures tickets { OnOk result
            (self.new.tickets ≡ self.old.tickets ++ answered_line issued.now self.old.acks reply ∷ []) }
        ensures frame { OnOk result (self.new ≡ record self.old { out = None; tickets = self.new.tickets }) }
    {
        self.tickets.push(TicketLine {
            told: issued.told,
            taken: issued.taken,
            answered: self.acks,
            reply,
        })?;
        self.out = None;
        Ok(())
    }

    /// Does what a reply of this agent says.
    fn apply_reply(
        &mut self,
        alloc: Global,
        source: &SourceCase<'_>,
        agent: &Agent,
        reply: &Reply,
    ) -> Result<(), NoMemory>
        requires good { AreGood source.now agent.now reply.now }
        requires number { self.old.present.epoch.number < most_acks }
        requires shape { IsEnvOf (form_at source.now self.old.present.epoch.program) self.old.present.env }
        requires spare { IsEnvOf (form_at source.now self.old.present.epoch.program) self.old.present.spare }
        ensures { OnOk result (Obeys source.now agent.now reply.now self.old self.new) }
    {
        match *reply {
            Reply::Nothing => Ok(()),
            Reply::Update(cwnd) => {
                self.present.env.cwnd = cwnd;
                Ok(())
            }
            Reply::Change { program, .. } => {
                self.start_program(alloc, source, program, &agent.values(reply))
            }
        }
    }

    /// Starts the program with this number, and with it an epoch. An untold notice is void then.
    fn start_program(
        &mut self,
        alloc: Global,
        source: &SourceCase<'_>,
        program: u32,
        values: &Fields,
    ) -> Result<(), NoMemory>
        requires good { first_bad_pair (length (form_at source.now program).controls) values.now ≡ None }
        requires number { self.old.present.epoch.number < most_acks }
        ensures { OnOk result (Changed source.now program values.now self.old self.new) }
    {
        let form = source.program(program);
        let cwnd = self.present.env.cwnd;
        let env = start_env(alloc, form, values, cwnd, self.present.env.rate, self.time)?;
        let spare = env.copy(alloc)?;
        let epoch = self.present.epoch.next(program, u64::from(self.acks));
        self.epochs
            .push(EpochLine::of(&epoch, self.acks, env.cwnd))?;
        self.present = Present {
            epoch,
            env,
            spare,
            is_stopped: false,
        };
        self.untold = None;
        Ok(())
    }
}

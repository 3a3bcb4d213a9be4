//! A driven flow: each call makes one letter of its word, and others read what it has.
ghost use Rattle.std.specs.Prelude.{◌≡◌, ◌<◌, [], ◌∷◌, ◌++◌, length, map, true, None, Some, IfOk, IfSome, OnOk, OnErr};
ghost use Rattle.ccp_base.specs.FieldReg.{first_bad_pair};
ghost use Rattle.driven_flow.specs.Driven.{code_in, is_known, is_known_for, bad_in, MayMake, told_out, world_by, flow_by};
ghost use Rattle.driven_flow.specs.Driven.{present_of, after_next, after_given, left_of, peak_by};
ghost use Rattle.driven_flow.specs.Driven.{ReadsAsSources};
ghost use Rattle.driven_flow.specs.Session.{IsShort};
ghost use Rattle.driven_flow.specs.AgentLaw.{IsOfCase, IsAgentFlow};
ghost use Rattle.campaign_core.specs.CampaignWord.{next_of};
ghost use Rattle.campaign_core.specs.CampaignRow.{row_over};
ghost use Rattle.flow_core.specs.Books.{ticket_line, epoch_line};
ghost use Rattle.flow_core.specs.LiveText.{end_of};
ghost use Rattle.flow_core.specs.World.{notice_of, track_of};
ghost use Rattle.flow_core.specs.Words.{is_complete};

use crate::answer::Answer;
use crate::case::DrivenCase;
use crate::letters;
use crate::programs::{Programs, is_known};
use crate::state::{Opened, State, first_letter};
use campaign_core::Row;
use ccp_base::{Ack, Fields, NoMemory, Notice, Told};
use flow_core::{Case, EpochLine, Letter, TicketLine};
use fold_machine::Steps;
use report_lines::End;
use std::alloc::Global;
use std::marker::{Brand, Model};
use std::sync::ledger::{Blank, Ledger};

/// A flow after its first change, whose further changes and updates come from outside.
// A struct around the state: what holds between letters is its invariant, while a step on the state may break it.
#[derive(Drop)]
pub struct DrivenFlow<'p> {
    state: State<'p>,
}

impl<'p> Model for DrivenFlow<'p> {
    ghost use Rattle.driven_flow.specs.Driven.{DrivenState};
    ghost use Rattle.portus_core.specs.contracts.program.Expr as expr;
    ghost use Rattle.std.specs.Coded.{codes};

    ghost Value = { DrivenState };

    ghost coded = { Prim.hlevel (codes, expr.the_row.coded) };

    ghost use Rattle.driven_flow.specs.DrivenStates.{driven_of, IsState};

    ghost view = { λ d. driven_of d.state };

    ghost invariant = { λ d. IsState d.state };
}

impl<'p> DrivenFlow<'p> {
    /// A flow of this case after its first change: to this program with these values.
    pub fn begin(
        alloc: Global,
        case: DrivenCase,
        programs: &'p Programs<'p>,
        program: u32,
        values: &Fields,
    ) -> Result<DrivenFlow<'p>, NoMemory>
        requires known { is_known programs.now program ≡ true }
        requires good { first_bad_pair (length (code_in programs.now program).controls) values.now ≡ None }
        ensures { IfOk result (λ driven. driven ≡ record {
          case = case;
          programs = programs.now;
          program = program;
          values = values.now;
          answers = [];
          word = [];
        }) }
    {
        match Opened::of(alloc, &case, programs, program, values) {
            Ok(opened) => Ok(DrivenFlow {
                state: State::begin(case, programs, program, values, opened),
            }),
            Err(fault) => {
                drop(case);
                Err(fault)
            }
        }
    }

    /// Takes an acknowledgement of the link. One must be left. If memory runs out, nothing changes.
    #[inline(always)]
    pub fn hear(&mut self, _alloc: Global) -> Result<(), NoMemory>
        requires { MayMake self.old Letter.A }
        ensures ok { OnOk result (self.new ≡ record self.old { word = self.old.word ++ Letter.A ∷ [] }) }
        ensures world { OnOk result (world_by self.new ≡ after_next self.old Letter.A) }
        ensures fewer { OnOk result (left_of self.new < left_of self.old) }
        ensures unchanged { OnErr result (self.new ≡ self.old) }
    {
        self.hear_in_ledger::<Brand>(Blank::new(1))
    }

    // A function of its own: its two calls have one ledger, which the proof of `hear` picks.
    /// As `hear`, with a counter that nobody reads, which `blank` opens.
    #[inline(always)]
    fn hear_in_ledger<L: Ledger>(&mut self, blank: Blank) -> Result<(), NoMemory>
        requires ledger { (blank.name ≡ L.name) × (blank.parts ≡ L.parts) × (0 < blank.parts) }
        requires may { MayMake self.old Letter.A }
        ensures ok { OnOk result (self.new ≡ record self.old { word = self.old.word ++ Letter.A ∷ [] }) }
        ensures unchanged { OnErr result (self.new ≡ self.old) }
    {
        self.state.journal.reserve_ack()?;
        let mut steps = Steps::<L>::new(blank);
        self.state.hear(&mut steps);
        Ok(())
    }

    /// Takes the oldest report, or else the notice, as a ticket. None may be out, and one must be there. If memory runs
    /// out, nothing changes.
    pub fn take(&mut self, _alloc: Global) -> Result<Told, NoMemory>
        requires { MayMake self.old Letter.T }
        ensures ok { OnOk result (self.new ≡ record self.old { word = self.old.word ++ Letter.T ∷ [] }) }
        ensures world { OnOk result (world_by self.new ≡ after_next self.old Letter.T) }
        ensures fewer { OnOk result (left_of self.new < left_of self.old) }
        ensures told { IfOk result (λ told. told_out (flow_by self.new) (world_by self.new) ≡ Some told) }
        ensures unchanged { OnErr result (self.new ≡ self.old) }
    {
        self.take_told()
    }

    // A function of its own: the proof of `take` cites its clause for the state after the letter.
    /// Takes what the next ticket tells.
    fn take_told(&mut self) -> Result<Told, NoMemory>
        requires { MayMake self.old Letter.T }
        ensures ok { OnOk result (self.new ≡ record self.old { word = self.old.word ++ Letter.T ∷ [] }) }
        ensures told { IfOk result (λ told. told_out (flow_by self.new) (world_by self.new) ≡ Some told) }
        ensures unchanged { OnErr result (self.new ≡ self.old) }
    {
        self.state.journal.reserve_take()?;
        Ok(self.state.take())
    }

    /// Applies an answer to the ticket that is out, which must be there. The program that it changes to, if it is a
    /// change, must be one of the programs, and its values may name no control variable that the program which they are
    /// for doesn't have. If memory runs out, nothing changes.
    pub fn settle(&mut self, _alloc: Global, answer: &Answer) -> Result<(), NoMemory>
        requires may { MayMake self.old Letter.C }
        requires known { is_known_for self.old.programs answer.now.program ≡ true }
        requires good { bad_in self.old.programs (present_of self.old) answer.now ≡ None }
        ensures ok { OnOk result (self.new ≡ record self.old {
          answers = self.old.answers ++ answer.now ∷ [];
          word = self.old.word ++ Letter.C ∷ [];
        }) }
        ensures world { OnOk result (
            world_by self.new ≡ after_given (flow_by self.old) answer.now (world_by self.old)) }
        ensures fewer { OnOk result (left_of self.new < left_of self.old) }
        ensures unchanged { OnErr result (self.new ≡ self.old) }
    {
        self.state.journal.reserve_answer()?;
        self.state.settle(answer);
        Ok(())
    }

    /// The next letter of the campaign word, None if the word is complete.
    pub fn next_letter(&self) -> Option<Letter>
        ensures next { result ≡ next_of (flow_by self.now) self.now.case.lag (world_by self.now) }
        ensures legal { IfSome result (MayMake self.now) }
        ensures complete { result ≡ None → is_complete (flow_by self.now) (world_by self.now) ≡ true }
    {
        self.find_next()
    }

    // A function of its own: the proof of `next_letter` cites its clause.
    /// The next letter of the campaign word.
    fn find_next(&self) -> Option<Letter>
        ensures { result ≡ next_of (flow_by self.now) self.now.case.lag (world_by self.now) }
    {
        let due = letters::is_due(&self.state.running, &self.state.case);
        let may_take = self.state.running.may_take();
        let may_hear = self.state.running.acks < self.state.case.acks;
        first_letter(due, may_take, may_hear)
    }

    /// The flow's case.
    pub fn case(&self) -> &DrivenCase
        ensures { result.now ≡ self.now.case }
    {
        &self.state.case
    }

    /// Whether one of the programs has this number.
    pub fn is_known(&self, number: u32) -> bool
        ensures { result ≡ is_known self.now.programs number }
    {
        is_known(self.state.programs, number)
    }

    /// The number of the program that runs.
    pub fn program(&self) -> u32
        ensures program { result ≡ present_of self.now }
        ensures known { is_known self.now.programs result ≡ true }
    {
        self.state.running.epoch.program
    }

    /// The place of an answer's first value that names a control variable which the program that the values are for
    /// doesn't have; None if there is none. The program that it changes to, if it is a change, must be one of the
    /// programs.
    pub fn first_bad(&self, answer: &Answer) -> Option<u32>
        requires { is_known_for self.now.programs answer.now.program ≡ true }
        ensures { result ≡ bad_in self.now.programs (present_of self.now) answer.now }
    {
        self.state.first_bad(answer)
    }

    /// What the ticket that is out tells, if one is out.
    pub fn told_out(&self) -> Option<Told>
        ensures told { result ≡ told_out (flow_by self.now) (world_by self.now) }
        ensures short { IfSome result IsShort }
    {
        self.state.running.told_out()
    }

    /// The row of the flow.
    pub fn row(&self) -> Row
        ensures { result ≡ row_over (flow_by self.now) (world_by self.now) (peak_by (flow_by self.now) self.now) }
    {
        letters::row(&self.state.running, self.state.sums, self.state.peak)
    }

    /// How the flow stands: its counts of acknowledgements, its window, its rate and its fields.
    pub fn end(&self) -> End
        ensures { result
            ≡ end_of (length (world_by self.now).acks) (track_of (flow_by self.now) (world_by self.now)) }
    {
        letters::end(&self.state.running)
    }

    /// How many reports were asked for while there was no room.
    pub fn held(&self) -> u32
        ensures { result ≡ (world_by self.now).held }
    {
        self.state.running.held
    }

    /// The acknowledgements in order.
    pub fn acks(&self) -> &[Ack]
        ensures { result.now ≡ (world_by self.now).acks }
    {
        self.state.journal.acks.as_slice()
    }

    /// The tickets that were answered, in order. What was answered stands beside them, in `answers`.
    pub fn tickets(&self) -> &[TicketLine]
        ensures { result.now ≡ map (ticket_line (flow_by self.now)) (world_by self.now).answered }
    {
        self.state.journal.tickets.as_slice()
    }

    /// The answers in the order of the tickets.
    pub fn answers(&self) -> &[Answer]
        ensures answers { result.now ≡ self.now.answers }
        ensures all { length result.now ≡ length (world_by self.now).answered }
    {
        self.state.journal.answers.as_slice()
    }

    /// The epochs in order, the present one last.
    pub fn epochs(&self) -> &[EpochLine]
        ensures { result.now ≡ map epoch_line ((world_by self.now).past ++ (world_by self.now).present ∷ []) }
    {
        self.state.journal.epochs.as_slice()
    }

    /// The faults in order.
    pub fn faults(&self) -> &[Notice]
        ensures { result.now ≡ map (notice_of (flow_by self.now)) (world_by self.now).faults }
    {
        self.state.journal.faults.as_slice()
    }

    /// A law: over the sources of the programs the flow has the same state, where each fault's instruction stands for
    /// its place, and the same greatest window, next letter and row.
    pub fn lift_law(&self)
        ensures { ReadsAsSources self.now }
    {}

    /// A law: if the answers are those that a case's agent gives on the word, from its opening change on, the state is
    /// that of the case's flow after the word, without the agent, and the row is its row.
    pub fn agent_law(&self, case: &Case)
        ensures { IsOfCase self.now case.now → IsAgentFlow self.now case.now }
    {
        let _ = case;
    }
}

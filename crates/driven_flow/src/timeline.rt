//! A driven flow's part of the live text.
ghost use Rattle.std.specs.Prelude.{◌≡◌, ◌++◌, OnOk};
ghost use Rattle.flow_core.specs.LiveText.{account_end_line, sources_of};
ghost use Rattle.driven_flow.specs.Driven.{codes_of, sourced_by, state_by};
ghost use Rattle.driven_flow.specs.DrivenAccounts.{account_by};
ghost use Rattle.driven_flow.specs.DrivenText.{driven_account_text, driven_part, further_values, given_lines, reply_text};
ghost use Rattle.driven_flow.specs.DrivenText.{value_text, values_text};

use crate::answer::Answer;
use crate::driven::DrivenFlow;
use ccp_base::{Bytes, FieldReg, NoMemory, Place};
use flow_core::TicketLine;
use live_lines::{
    Counts, Own, Places, ReplyText, fields_of, place_at, program_places, put_answered_line,
    put_epoch_lines, put_fault_lines, put_labelled_line, put_last_line, report_count,
};
use reg_compiler::Built;
use report_lines::put_labelled;

/// Appends a driven flow's part of the live text: the flow with `own` as its agent, its epochs, its faults with their
/// places, its tickets, each with its answer as the reply, and how the flow stands. These are the flow's programs.
pub fn put_flow_part(
    text: &mut Bytes,
    programs: &[(u32, Built)],
    flow: &DrivenFlow,
) -> Result<(), NoMemory>
    requires { codes_of programs.now ≡ flow.now.programs }
    ensures { OnOk result (text.new ≡ text.old ++ driven_part (sources_of programs.now) flow.now.case
        (state_by (sourced_by programs.now flow.now) flow.now) flow.now.answers) }
{
    flow.lift_law();
    put_account(text, programs, flow)
}

// A function of its own: its clause has the flow's state over the codes, and that of `put_flow_part` over the sources.
fn put_account(
    text: &mut Bytes,
    programs: &[(u32, Built)],
    flow: &DrivenFlow,
) -> Result<(), NoMemory>
    ensures { OnOk result (text.new ≡ text.old ++ driven_account_text (sources_of programs.now) flow.now.case
        (account_by programs.now flow.now) flow.now.answers) }
{
    let case = flow.case();
    put_labelled_line(text, case.flow, &case.name, &Own)?;
    put_epoch_lines(text, flow.epochs())?;
    put_fault_lines(text, &CodePlaces { programs }, flow.faults())?;
    put_tickets(text, programs, flow.tickets(), flow.answers())?;
    put_last(text, programs, flow)
}

/// The places of the instructions of programs.
#[derive(Drop)]
struct CodePlaces<'p> {
    programs: &'p [(u32, Built)],
}

impl<'p> Places for CodePlaces<'p> {
    ghost use Rattle.driven_flow.specs.Driven.{placed_in};

    ghost placing = { λ places. placed_in places.programs.now };

    fn place(&self, program: u32, index: u16) -> Place {
        place_at(program_places(self.programs, program), index)
    }
}

/// Appends the lines of tickets, numbered from 0, each with its answer as the reply.
fn put_tickets(
    text: &mut Bytes,
    programs: &[(u32, Built)],
    tickets: &[TicketLine],
    answers: &[Answer],
) -> Result<(), NoMemory>
    ensures { OnOk result (text.new
        ≡ text.old ++ given_lines (sources_of programs.now) 0 tickets.now answers.now) }
{
    let mut number = 0;
    let mut left = tickets;
    let mut left_answers = answers;
    while let Some((ticket, rest)) = left.split_first() {
        let Some((answer, rest_answers)) = left_answers.split_first() else {
            return Ok(());
        };
        put_answered_line(text, programs, number, ticket, answer)?;
        number += 1;
        left = rest;
        left_answers = rest_answers;
    }
    Ok(())
}

/// Appends the last line of a flow.
fn put_last(text: &mut Bytes, programs: &[(u32, Built)], flow: &DrivenFlow) -> Result<(), NoMemory>
    ensures { OnOk result (text.new
        ≡ text.old ++ account_end_line (sources_of programs.now) (account_by programs.now flow.now)) }
{
    let counts = Counts {
        reports: report_count(flow.tickets()),
        held: flow.held(),
        faults: flow.faults().len(),
    };
    let fields = fields_of(programs, flow.program());
    put_last_line(text, fields, counts, &flow.end())
}

impl ReplyText for Answer {
    ghost use Rattle.driven_flow.specs.DrivenText.{given_text};

    ghost shown = { given_text };

    fn put(&self, text: &mut Bytes) -> Result<(), NoMemory> {
        put_reply(text, self.program, self.values.as_slice())
    }
}

/// Appends an answer that changes to this program, if it is a change, with these values.
fn put_reply(
    text: &mut Bytes,
    program: Option<u32>,
    values: &[(FieldReg, u64)],
) -> Result<(), NoMemory>
    ensures { OnOk result (text.new ≡ text.old ++ reply_text program values.now) }
{
    match program {
        Some(program) => {
            put_labelled(text, b"change:", u64::from(program))?;
            text.push(b':')?;
            put_values(text, values)
        }
        None if values.is_empty() => {
            text.extend(b"none")?;
            Ok(())
        }
        None => {
            text.extend(b"update:")?;
            put_values(text, values)
        }
    }
}

/// Appends values in order, with a comma between them.
fn put_values(text: &mut Bytes, values: &[(FieldReg, u64)]) -> Result<(), NoMemory>
    ensures { OnOk result (text.new ≡ text.old ++ values_text values.now) }
{
    let Some((first, rest)) = values.split_first() else {
        return Ok(());
    };
    put_value(text, first.0, first.1)?;
    put_further_values(text, rest)
}

/// Appends values, each after a comma.
fn put_further_values(text: &mut Bytes, values: &[(FieldReg, u64)]) -> Result<(), NoMemory>
    ensures { OnOk result (text.new ≡ text.old ++ further_values values.now) }
{
    let mut left = values;
    while let Some((pair, rest)) = left.split_first() {
        text.push(b',')?;
        put_value(text, pair.0, pair.1)?;
        left = rest;
    }
    Ok(())
}

/// Appends a value after the name of what it is written to.
fn put_value(text: &mut Bytes, reg: FieldReg, value: u64) -> Result<(), NoMemory>
    ensures { OnOk result (text.new ≡ text.old ++ value_text reg value) }
{
    match reg {
        FieldReg::Cwnd => put_labelled(text, b"cwnd=", value),
        FieldReg::Rate => put_labelled(text, b"rate=", value),
        FieldReg::Control(i) => {
            put_labelled(text, b"control", u64::from(i))?;
            put_labelled(text, b"=", value)
        }
    }
}

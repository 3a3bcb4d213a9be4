//! The line of a ticket: the report or fault, when the ticket was taken and answered, and the agent's reply.
ghost use Rattle.std.specs.Prelude.{◌≡◌, ℕ, ◌++◌, List, OnOk};
ghost use Rattle.flow_core.specs.LiveText.{report_count, sources_of, ticket_text, told_text};
ghost use Rattle.live_lines.specs.AnsweredLines.{answered_line, answered_text};

use crate::programs::fields_of;
use ccp_base::{Bytes, NoMemory, Reply, Told};
use flow_core::TicketLine;
use reg_compiler::Built;
use report_lines::{put_fault_head, put_labelled, put_report_head, put_report_tail};

/// What a ticket's line shows as the reply to it.
pub trait ReplyText {
    /// What is shown.
    ghost shown: { Self → List ℕ };

    /// Appends what is shown.
    fn put(&self, text: &mut Bytes) -> Result<(), NoMemory>
        ensures { OnOk result (text.new ≡ text.old ++ shown self.now) };
}

impl ReplyText for Reply {
    ghost use Rattle.flow_core.specs.LiveText.{reply_text};

    ghost shown = { reply_text };

    fn put(&self, text: &mut Bytes) -> Result<(), NoMemory> {
        match self {
            Reply::Nothing => text.extend(b"none")?,
            Reply::Update(cwnd) => {
                put_labelled(text, b"update:", *cwnd)?;
            }
            Reply::Change { program, cwnd, cap } => {
                put_labelled(text, b"change:", u64::from(*program))?;
                put_labelled(text, b":", *cwnd)?;
                put_labelled(text, b":", *cap)?;
            }
        }
        Ok(())
    }
}

/// Appends the line of the ticket with this number. A report shows the fields of its program, which is among these.
pub fn put_ticket_line(
    text: &mut Bytes,
    programs: &[(u32, Built)],
    number: usize,
    ticket: &TicketLine,
) -> Result<(), NoMemory>
    ensures { OnOk result (text.new ≡ text.old ++ ticket_text (sources_of programs.now) number ticket.now) }
{
    put_answered_line(text, programs, number, ticket, &ticket.reply)
}

/// Appends the line of the ticket with this number, with this as the reply in place of the ticket's. A report shows the
/// fields of its program, which is among these.
pub fn put_answered_line<R: ReplyText>(
    text: &mut Bytes,
    programs: &[(u32, Built)],
    number: usize,
    ticket: &TicketLine,
    reply: &R,
) -> Result<(), NoMemory>
    ensures { OnOk result (text.new
        ≡ text.old ++ answered_line (sources_of programs.now) number ticket.now (R.shown reply.now)) }
{
    put_labelled(text, b"ticket ", number as u64)?;
    text.push(b' ')?;
    put_content(text, programs, ticket, reply)
}

/// Appends the ticket's content, when it was taken and answered, and the reply.
fn put_content<R: ReplyText>(
    text: &mut Bytes,
    programs: &[(u32, Built)],
    ticket: &TicketLine,
    reply: &R,
) -> Result<(), NoMemory>
    ensures { OnOk result (text.new ≡ text.old
        ++ told_text (sources_of programs.now) ticket.now.told (answered_text ticket.now (R.shown reply.now))) }
{
    match &ticket.told {
        Told::Report(report) => {
            put_report_head(text, report)?;
            put_answer(text, ticket, reply)?;
            put_report_tail(text, fields_of(programs, report.program), report)
        }
        Told::Fault(notice) => {
            put_fault_head(text, notice.epoch, notice.at)?;
            put_answer(text, ticket, reply)?;
            text.push(b'\n')?;
            Ok(())
        }
    }
}

/// Appends the numbers of acknowledgements at which a ticket was taken and answered, and the reply.
fn put_answer<R: ReplyText>(
    text: &mut Bytes,
    ticket: &TicketLine,
    reply: &R,
) -> Result<(), NoMemory>
    ensures { OnOk result (text.new ≡ text.old ++ answered_text ticket.now (R.shown reply.now)) }
{
    put_labelled(text, b" taken=", u64::from(ticket.taken))?;
    put_labelled(text, b" answered=", u64::from(ticket.answered))?;
    text.extend(b" reply=")?;
    reply.put(text)
}

/// How many of the tickets have a report.
pub fn report_count(tickets: &[TicketLine]) -> u64
    ensures { result ≡ report_count tickets.now }
{
    let mut left = tickets;
    let mut count = 0;
    while let Some((ticket, rest)) = left.split_first() {
        if let Told::Report(_) = ticket.told {
            count += 1;
        }
        left = rest;
    }
    count
}

//! A flow's part of a live text after the flow's first line: its epochs, faults with their places, tickets and end.
ghost use Rattle.std.specs.Prelude.{◌≡◌, ◌++◌, OnOk};
ghost use Rattle.flow_core.specs.LiveText.{fields_at, last_line, report_count, sources_of, ticket_lines};
ghost use Rattle.live_lines.specs.FlowParts.{account_with, body_text};

use crate::ends::{Counts, put_last_line};
use crate::epochs::put_epoch_lines;
use crate::places::PlacedFaults;
use crate::programs::fields_of;
use crate::tickets::{put_ticket_line, report_count};
use ccp_base::{Bytes, NoMemory};
use flow_core::{EpochLine, TicketLine};
use reg_compiler::Built;
use report_lines::End;

/// What a flow's part of a live text shows beside the flow's first line and its faults.
#[derive(Clone, Copy)]
pub struct FlowPart<'a> {
    pub epochs: &'a [EpochLine],
    pub tickets: &'a [TicketLine],
    /// How many reports were asked for while there was no room.
    pub held: u32,
    /// The number of the last epoch's program.
    pub program: u32,
    pub end: &'a End,
}

/// Appends a flow's part of a live text after the flow's first line. Reports and the end show the fields of their
/// programs, which are among these.
pub fn put_flow_body<F: PlacedFaults>(
    text: &mut Bytes,
    programs: &[(u32, Built)],
    part: &FlowPart<'_>,
    faults: &F,
) -> Result<(), NoMemory>
    ensures { OnOk result (text.new
        ≡ text.old ++ body_text (sources_of programs.now) (account_with part.now (F.failures faults.now))) }
{
    put_epoch_lines(text, part.epochs)?;
    faults.put(text)?;
    put_ticket_lines(text, programs, part.tickets)?;
    put_end(text, programs, part, faults.count())
}

fn put_ticket_lines(
    text: &mut Bytes,
    programs: &[(u32, Built)],
    tickets: &[TicketLine],
) -> Result<(), NoMemory>
    ensures { OnOk result (text.new ≡ text.old ++ ticket_lines (sources_of programs.now) 0 tickets.now) }
{
    for (number, ticket) in tickets.iter().enumerate() {
        put_ticket_line(text, programs, number, ticket)?;
    }
    Ok(())
}

/// Appends the last line of a flow with this number of faults.
fn put_end(
    text: &mut Bytes,
    programs: &[(u32, Built)],
    part: &FlowPart<'_>,
    faults: usize,
) -> Result<(), NoMemory>
    ensures { OnOk result (text.new ≡ text.old ++ last_line (fields_at (sources_of programs.now) part.now.program)
        (report_count part.now.tickets.now) part.now.held faults part.now.end.now) }
{
    let counts = Counts {
        reports: report_count(part.tickets),
        held: part.held,
        faults,
    };
    put_last_line(text, fields_of(programs, part.program), counts, part.end)
}

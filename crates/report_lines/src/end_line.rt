//! The last line of a flow: its counts, the unreported span, and its window and fields as they stand.
ghost use Rattle.std.specs.Prelude.{◌≡◌, ◌++◌, OnOk};
ghost use Rattle.report_lines.specs.EndLine.{end_head, end_line, end_tail, span_text, yes_or_no};

use crate::fields_text::{put_fields, put_window};
use crate::number::put_labelled;
use ccp_base::{Bytes, NoMemory, Values};
use portus_core::Decl;

/// How a flow stands at its end.
#[derive(Clone, Copy)]
pub struct End {
    /// How many acknowledgements there were.
    pub acks: u64,
    /// Where the unreported span begins, as a number of acknowledgements.
    pub first: u64,
    /// Whether a fault stopped the program.
    pub stopped: bool,
    /// The congestion window, in bytes.
    pub cwnd: u64,
    /// The pacing rate, in bytes a second.
    pub rate: u64,
    /// The fields as they stand, in order of declaration.
    pub fields: Values,
}

/// Appends the last line of a flow, whose program has these fields.
pub fn put_end(text: &mut Bytes, fields: &[Decl], reports: u64, end: &End) -> Result<(), NoMemory>
    ensures { OnOk result (text.new ≡ text.old ++ end_line fields.now reports end.now) }
{
    put_end_head(text, reports, end)?;
    put_end_tail(text, fields, end)
}

/// Appends the beginning of the last line: the numbers of acknowledgements and reports.
pub fn put_end_head(text: &mut Bytes, reports: u64, end: &End) -> Result<(), NoMemory>
    ensures { OnOk result (text.new ≡ text.old ++ end_head reports end.now) }
{
    put_labelled(text, b"end acks=", end.acks)?;
    put_labelled(text, b" reports=", reports)
}

/// Appends the rest of the last line: the unreported span, and the flow's window and fields as they stand.
pub fn put_end_tail(text: &mut Bytes, fields: &[Decl], end: &End) -> Result<(), NoMemory>
    ensures { OnOk result (text.new ≡ text.old ++ end_tail fields.now end.now) }
{
    put_span(text, end)?;
    text.extend(b" stopped=")?;
    text.extend(yes_or_no(end.stopped).as_bytes())?;
    put_window(text, end.cwnd, end.rate)?;
    put_fields(text, fields, &end.fields)?;
    text.push(b'\n')?;
    Ok(())
}

fn put_span(text: &mut Bytes, end: &End) -> Result<(), NoMemory>
    ensures { OnOk result (text.new ≡ text.old ++ span_text end.now) }
{
    put_labelled(text, b" tail=", end.first)?;
    put_labelled(text, b"..", end.acks)
}

fn yes_or_no(truth: bool) -> &'static str
    ensures { result.now ≡ yes_or_no truth }
{
    if truth { "yes" } else { "no" }
}

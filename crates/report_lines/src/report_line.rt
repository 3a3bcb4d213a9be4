//! The lines of reports: program, epoch and span, then the window, the rate and the fields.
ghost use Rattle.std.specs.Prelude.{◌≡◌, ◌++◌, OnOk};
ghost use Rattle.report_lines.specs.ReportLine.{report_head, report_tail, report_line, report_lines};

use crate::fields_text::{put_fields, put_window};
use crate::number::put_labelled;
use ccp_base::{Bytes, NoMemory, Report};
use portus_core::Decl;

/// Appends the lines of reports of the program with these fields.
pub fn put_reports(text: &mut Bytes, fields: &[Decl], reports: &[Report]) -> Result<(), NoMemory>
    ensures { OnOk result (text.new ≡ text.old ++ report_lines fields.now reports.now) }
{
    let mut left = reports;
    while let Some((report, rest)) = left.split_first() {
        put_report(text, fields, report)?;
        left = rest;
    }
    Ok(())
}

/// Appends the line of a report of the program with these fields.
pub fn put_report(text: &mut Bytes, fields: &[Decl], report: &Report) -> Result<(), NoMemory>
    ensures { OnOk result (text.new ≡ text.old ++ report_line fields.now report.entry.now) }
{
    put_report_head(text, report)?;
    put_report_tail(text, fields, report)
}

/// Appends what a report is of: its program, epoch and span.
pub fn put_report_head(text: &mut Bytes, report: &Report) -> Result<(), NoMemory>
    ensures { OnOk result (text.new ≡ text.old ++ report_head report.entry.now) }
{
    put_labelled(text, b"report program=", u64::from(report.program))?;
    put_labelled(text, b" epoch=", u64::from(report.epoch))?;
    put_labelled(text, b" span=", report.first)?;
    put_labelled(text, b"..", report.end)?;
    Ok(())
}

/// Appends what a report shows, to the end of its line.
pub fn put_report_tail(text: &mut Bytes, fields: &[Decl], report: &Report) -> Result<(), NoMemory>
    ensures { OnOk result (text.new ≡ text.old ++ report_tail fields.now report.entry.now) }
{
    put_labelled(text, b" now=", report.now)?;
    put_window(text, report.cwnd, report.rate)?;
    put_fields(text, fields, &report.fields)?;
    text.push(b'\n')?;
    Ok(())
}

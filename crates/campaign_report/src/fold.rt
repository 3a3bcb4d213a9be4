//! The text of a program's fold: the reports, the fault with its place in the source, and the end line.
ghost use Rattle.std.specs.Prelude.{◌≡◌, ◌++◌, IfOk, OnOk, length, option_map};
ghost use Rattle.std.specs.List.{All};
ghost use Rattle.std.specs.Option.{ForSome};
ghost use Rattle.portus_core.specs.ProgramForm.{form_of};
ghost use Rattle.report_lines.specs.FaultLine.{placed_line};
ghost use Rattle.campaign_report.specs.FoldText.{IsPlaced, ShowsAll, fault_part, program_text};

use ccp_base::{Bytes, NoMemory, Notice, Place, Reports};
use reg_compiler::Built;
use report_lines::{End, put_end, put_fault, put_reports};
use std::alloc::Global;

/// The text of a fold of a program: its reports, its fault and the end line.
pub fn fold_text(
    alloc: Global,
    built: &Built,
    reports: &Reports,
    fault: Option<Notice>,
    end: &End,
) -> Result<Bytes, NoMemory>
    // Each report and the last fields show as many fields as the program declares, and the faulting instruction
    // has a place.
    requires reports { All (ShowsAll (form_of built.now.program).fields) reports.now }
    requires fault { ForSome fault (IsPlaced built.now.places) }
    requires end { length end.now.fields ≡ length (form_of built.now.program).fields }
    ensures { IfOk result (λ text. text ≡ program_text built.now reports.now fault end.now) }
{
    let fields = built.program.fields.as_slice();
    let mut text = Bytes::new(alloc);
    put_reports(&mut text, fields, reports.as_slice())?;
    put_notice(&mut text, built.places.as_slice(), fault)?;
    put_end(&mut text, fields, reports.len() as u64, end)?;
    Ok(text)
}

/// Appends the line of a fault if there is one.
fn put_notice(text: &mut Bytes, places: &[Place], fault: Option<Notice>) -> Result<(), NoMemory>
    ensures { OnOk result (text.new ≡ text.old ++ fault_part places.now fault) }
{
    match fault {
        None => Ok(()),
        Some(notice) => put_placed(text, &notice, places.get(usize::from(notice.index))),
    }
}

fn put_placed(text: &mut Bytes, notice: &Notice, place: Option<&Place>) -> Result<(), NoMemory>
    ensures { OnOk result (text.new ≡ text.old ++ placed_line notice.entry.now (option_map (λ p. p.now) place.entry)) }
{
    match place {
        None => Ok(()),
        Some(place) => put_fault(text, notice, *place),
    }
}

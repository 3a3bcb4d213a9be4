//! The last line of a flow in a live text: its counts, the unreported span, and its window and fields as they stand.
ghost use Rattle.std.specs.Prelude.{◌≡◌, ◌++◌, OnOk};
ghost use Rattle.flow_core.specs.LiveText.{last_line};

use ccp_base::{Bytes, NoMemory};
use portus_core::Decl;
use report_lines::{End, put_end_head, put_end_tail, put_labelled};

/// What the last line of a flow counts beside acknowledgements.
#[derive(Clone, Copy)]
pub struct Counts {
    pub reports: u64,
    /// How many reports were asked for while there was no room.
    pub held: u32,
    pub faults: usize,
}

/// Appends the last line of a flow, whose last program has these fields.
pub fn put_last_line(
    text: &mut Bytes,
    fields: &[Decl],
    counts: Counts,
    end: &End,
) -> Result<(), NoMemory>
    ensures { OnOk result (text.new
        ≡ text.old ++ last_line fields.now counts.reports counts.held counts.faults end.now) }
{
    put_end_head(text, counts.reports, end)?;
    put_labelled(text, b" held=", u64::from(counts.held))?;
    put_labelled(text, b" faults=", counts.faults as u64)?;
    put_end_tail(text, fields, end)
}

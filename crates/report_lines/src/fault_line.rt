//! The line of a fault: its epoch, its acknowledgement, its kind and its place in the source.
ghost use Rattle.std.specs.Prelude.{◌≡◌, ◌++◌, OnOk};
ghost use Rattle.report_lines.specs.FaultLine.{fault_head, fault_line, kind_text, notice_line, place_tail};

use crate::number::put_labelled;
use ccp_base::{Bytes, FaultKind, NoMemory, Notice, Place};

/// Appends the line of a notice's fault, whose operation has this place.
pub fn put_fault(text: &mut Bytes, notice: &Notice, place: Place) -> Result<(), NoMemory>
    ensures { OnOk result (text.new ≡ text.old ++ notice_line notice.entry.now place) }
{
    put_fault_line(text, notice.epoch, notice.at, notice.kind, place)
}

/// Appends the line of a fault of this kind: its epoch, the number of its acknowledgement, and its operation's place.
pub fn put_fault_line(
    text: &mut Bytes,
    epoch: u32,
    at: u64,
    kind: FaultKind,
    place: Place,
) -> Result<(), NoMemory>
    ensures { OnOk result (text.new ≡ text.old ++ fault_line epoch at kind place) }
{
    put_fault_head(text, epoch, at)?;
    text.extend(b" kind=")?;
    text.extend(kind_text(kind).as_bytes())?;
    put_place_tail(text, place)
}

/// Appends the epoch of a fault and the number of its acknowledgement.
pub fn put_fault_head(text: &mut Bytes, epoch: u32, at: u64) -> Result<(), NoMemory>
    ensures { OnOk result (text.new ≡ text.old ++ fault_head epoch at) }
{
    put_labelled(text, b"fault epoch=", u64::from(epoch))?;
    put_labelled(text, b" ack=", at)?;
    Ok(())
}

fn put_place_tail(text: &mut Bytes, place: Place) -> Result<(), NoMemory>
    ensures { OnOk result (text.new ≡ text.old ++ place_tail place) }
{
    put_labelled(text, b" at=", u64::from(place.line))?;
    put_labelled(text, b":", u64::from(place.column))?;
    text.push(b'\n')?;
    Ok(())
}

fn kind_text(kind: FaultKind) -> &'static str
    ensures { result.now ≡ kind_text kind }
{
    match kind {
        FaultKind::Overflow => "Overflow",
        FaultKind::Underflow => "Underflow",
        FaultKind::ZeroDivisor => "ZeroDivisor",
    }
}

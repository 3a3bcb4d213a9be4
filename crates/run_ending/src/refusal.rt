//! Why an input is refused, how long inputs may be, and the line that reports a refusal.
ghost use Rattle.std.specs.Prelude.{◌≡◌, ◌++◌, IfOk, OnOk, codes, decimal};
ghost use Rattle.run_ending.specs.ErrorLine.{field_name, most_bytes, refusal_line};

use ccp_base::{Bytes, NoMemory};
use portus_build::{BuildFault, put_refusal};
use reply_frames::BadKind;
use scene_faults::{SceneFault, put_scene_refusal};
use std::alloc::Global;

/// How long an input may be.
#[derive(Clone, Copy)]
pub enum Limit {
    /// 1,048,576 bytes, in every mode but `audit` and those of driven flows, and before the separator there.
    Input,
    /// 67,108,864 bytes, for the whole input of `audit` and of driven flows.
    Audit,
}

/// The line that reports an input past the shorter limit.
const INPUT_LINE: &[u8] = b"ccp: input refused: more than 1048576 bytes\n";

/// The line that reports an input past the longer limit.
const AUDIT_LINE: &[u8] = b"ccp: input refused: more than 67108864 bytes\n";

impl Limit {
    pub fn bytes(self) -> usize
        ensures { result ≡ most_bytes self }
    {
        match self {
            Limit::Input => 1_048_576,
            Limit::Audit => 67_108_864,
        }
    }

    /// The line that reports a longer input.
    pub fn line(self) -> &'static [u8]
        ensures { result.now ≡ refusal_line (Refusal.TooLong self) }
    {
        match self {
            Limit::Input => INPUT_LINE,
            Limit::Audit => AUDIT_LINE,
        }
    }
}

/// Why an input is refused.
#[derive(Drop)]
pub enum Refusal {
    /// It has more bytes than this.
    TooLong(Limit),
    /// No line is `---`.
    NoSeparator,
    /// The text of the program is built into no code.
    Program(BuildFault),
    /// The line of this number is no acknowledgement.
    Line(u64),
    /// There are more than 65,536 acknowledgements.
    TooManyAcks,
    /// The text is no scenario.
    Scene(SceneFault),
    /// From some byte on the input isn't the start of any frame: the field of that byte, and its offset in the input.
    Frame(BadKind, u64),
    /// The input ends within the frame that begins at this offset.
    FrameCut(u64),
}

/// The line that reports why an input is refused.
pub fn refusal_line(alloc: Global, refusal: &Refusal) -> Result<Bytes, NoMemory>
    ensures { IfOk result (λ line. line ≡ refusal_line refusal.now) }
{
    let mut line = Bytes::new(alloc);
    match refusal {
        Refusal::TooLong(limit) => line.extend(limit.line())?,
        Refusal::NoSeparator => line.extend(b"ccp: input refused: no separator\n")?,
        Refusal::Program(fault) => put_program_fault(alloc, &mut line, *fault)?,
        Refusal::Line(number) => put_line_fault(alloc, &mut line, *number)?,
        Refusal::TooManyAcks => line.extend(b"ccp: input refused: too many acknowledgements\n")?,
        Refusal::Scene(fault) => put_scene_fault(alloc, &mut line, fault)?,
        Refusal::Frame(field, place) => put_frame_fault(alloc, &mut line, *field, *place)?,
        Refusal::FrameCut(place) => put_frame_cut(alloc, &mut line, *place)?,
    }
    Ok(line)
}

fn put_line_fault(alloc: Global, line: &mut Bytes, number: u64) -> Result<(), NoMemory>
    ensures { OnOk result (line.new ≡ line.old ++ refusal_line (Refusal.Line number)) }
{
    let part = format!(in alloc; "ccp: input refused: acknowledgement line {number}\n")?;
    line.extend(part.as_bytes())?;
    Ok(())
}

fn put_program_fault(alloc: Global, line: &mut Bytes, fault: BuildFault) -> Result<(), NoMemory>
    ensures { OnOk result (line.new ≡ line.old ++ refusal_line (Refusal.Program fault)) }
{
    line.extend(b"ccp: input refused: program ")?;
    put_refusal(alloc, line, fault)?;
    line.push(b'\n')?;
    Ok(())
}

fn put_frame_fault(
    alloc: Global,
    line: &mut Bytes,
    field: BadKind,
    place: u64,
) -> Result<(), NoMemory>
    ensures { OnOk result (line.new ≡ line.old ++ refusal_line (Refusal.Frame field place)) }
{
    line.extend(b"ccp: input refused: frame ")?;
    put_field(line, field)?;
    put_place(alloc, line, place)?;
    Ok(())
}

fn put_field(line: &mut Bytes, field: BadKind) -> Result<(), NoMemory>
    ensures { OnOk result (line.new ≡ line.old ++ field_name field) }
{
    line.extend(field_name(field))?;
    Ok(())
}

fn put_place(alloc: Global, line: &mut Bytes, place: u64) -> Result<(), NoMemory>
    ensures { OnOk result (line.new ≡ line.old ++ (codes " at " ++ (decimal place ++ codes "\n"))) }
{
    let part = format!(in alloc; " at {place}\n")?;
    line.extend(part.as_bytes())?;
    Ok(())
}

fn put_frame_cut(alloc: Global, line: &mut Bytes, place: u64) -> Result<(), NoMemory>
    ensures { OnOk result (line.new ≡ line.old ++ refusal_line (Refusal.FrameCut place)) }
{
    let part = format!(in alloc; "ccp: input refused: frame cut at {place}\n")?;
    line.extend(part.as_bytes())?;
    Ok(())
}

/// The name of the field in which a byte is bad.
fn field_name<'a>(field: BadKind) -> &'a [u8]
    ensures { result.now ≡ field_name field }
{
    match field {
        BadKind::Kind => b"Kind",
        BadKind::Version => b"Version",
        BadKind::Count => b"Count",
        BadKind::Length => b"Length",
        BadKind::Flag => b"Flag",
        BadKind::Op => b"Op",
        BadKind::Class => b"Class",
        BadKind::Index => b"Index",
        BadKind::FaultKind => b"FaultKind",
    }
}

fn put_scene_fault(alloc: Global, line: &mut Bytes, fault: &SceneFault) -> Result<(), NoMemory>
    ensures { OnOk result (line.new ≡ line.old ++ refusal_line (Refusal.Scene fault.now)) }
{
    line.extend(b"ccp: input refused: ")?;
    put_scene_refusal(alloc, line, fault)?;
    line.push(b'\n')?;
    Ok(())
}

//! The listing of a code: a line for each report field, control variable, event and instruction.
ghost use Rattle.std.specs.Prelude.{◌≡◌, ◌++◌, OnOk, IfOk, ◌^◌, ◌<◌, decimal};
ghost use Rattle.reg_code.specs.ListingText.{op_text, implicit_text, numbered_text, reg_text, keeping_text, start_line};
ghost use Rattle.reg_code.specs.ListingText.{start_lines, indices_text, event_head, event_line, event_lines, operand_text};
ghost use Rattle.reg_code.specs.ListingText.{instr_head, instr_line, instr_lines, listing_text};

use crate::code::{Code, Event, Implicit, Instr, Op, Reg, Start};
use crate::packed::Packed;
use ccp_base::{Bytes, NoMemory};
use std::alloc::Global;

/// The listing of a code: a line each for its report fields, its control variables, its events and its
/// instructions.
pub fn listing(alloc: Global, code: &Code) -> Result<Bytes, NoMemory>
    ensures { IfOk result (λ text. text ≡ listing_text code.now) }
{
    let mut text = Bytes::new(alloc);
    put_starts(alloc, &mut text, "report", code.reports())?;
    put_starts(alloc, &mut text, "control", code.controls())?;
    put_events(alloc, &mut text, code.events())?;
    put_instrs(alloc, &mut text, code.instrs())?;
    Ok(text)
}

fn put_starts(
    alloc: Global,
    text: &mut Bytes,
    class: &str,
    starts: &[Start],
) -> Result<(), NoMemory>
    ensures { OnOk result (text.new ≡ text.old ++ start_lines class.now 0 starts.now) }
{
    for (i, start) in starts.iter().enumerate() {
        put_start(alloc, text, class, i, start)?;
    }
    Ok(())
}

fn put_start(
    alloc: Global,
    text: &mut Bytes,
    class: &str,
    i: usize,
    start: &Start,
) -> Result<(), NoMemory>
    ensures { OnOk result (text.new ≡ text.old ++ start_line class.now i start.now) }
{
    let line = format!(in alloc;
        "{class} {i} {} {}\n",
        keeping_text(start.volatile),
        start.value
    )?;
    text.extend(line.as_bytes())?;
    Ok(())
}

/// Appends the lines of events. The index of an event's first instruction is the sum of the events' numbers before it:
/// a code that isn't accepted may have any number of events, so by the types alone the sum can pass 2^64, and a u128
/// holds it.
fn put_events(alloc: Global, text: &mut Bytes, events: &[Event]) -> Result<(), NoMemory>
    ensures { OnOk result (text.new ≡ text.old ++ event_lines 0 0 events.now) }
{
    let mut index = 0;
    for (i, event) in events.iter().enumerate() {
        put_event(alloc, text, i, index, event)?;
        index += u128::from(event.condition) + u128::from(event.body);
    }
    Ok(())
}

fn put_event(
    alloc: Global,
    text: &mut Bytes,
    i: usize,
    index: u128,
    event: &Event,
) -> Result<(), NoMemory>
    requires { index < 2 ^ 96 }
    ensures { OnOk result (text.new ≡ text.old ++ event_line i index event.now) }
{
    let body = index + u128::from(event.condition);
    put_event_head(alloc, text, i)?;
    put_span(alloc, text, index, body)?;
    text.extend(b" body ")?;
    put_span(alloc, text, body, body + u128::from(event.body))?;
    text.push(b'\n')?;
    Ok(())
}

fn put_event_head(alloc: Global, text: &mut Bytes, i: usize) -> Result<(), NoMemory>
    ensures { OnOk result (text.new ≡ text.old ++ event_head i) }
{
    let head = format!(in alloc; "event {i} condition ")?;
    text.extend(head.as_bytes())?;
    Ok(())
}

fn put_span(alloc: Global, text: &mut Bytes, first: u128, end: u128) -> Result<(), NoMemory>
    ensures { OnOk result (text.new ≡ text.old ++ indices_text first end) }
{
    put_decimal(alloc, text, first)?;
    text.extend(b"..")?;
    put_decimal(alloc, text, end)
}

/// Appends a number. What is below 2^64 is formatted at once; of a greater one, the digits before the last are put
/// first, as those of a number by themselves, and then the last.
fn put_decimal(alloc: Global, text: &mut Bytes, n: u128) -> Result<(), NoMemory>
    ensures { OnOk result (text.new ≡ text.old ++ decimal n) }
{
    if n < 1 << 64 {
        put_small_decimal(alloc, text, n as u64)
    } else {
        put_decimal(alloc, text, n / 10)?;
        text.push(b'0' + (n % 10) as u8)?;
        Ok(())
    }
}

fn put_small_decimal(alloc: Global, text: &mut Bytes, n: u64) -> Result<(), NoMemory>
    ensures { OnOk result (text.new ≡ text.old ++ decimal n) }
{
    let digits = format!(in alloc; "{n}")?;
    text.extend(digits.as_bytes())?;
    Ok(())
}

fn put_instrs(alloc: Global, text: &mut Bytes, instrs: &[Packed]) -> Result<(), NoMemory>
    ensures { OnOk result (text.new ≡ text.old ++ instr_lines 0 instrs.now) }
{
    for (index, instr) in instrs.iter().enumerate() {
        put_instr(alloc, text, index, &instr.instr())?;
    }
    Ok(())
}

fn put_instr(alloc: Global, text: &mut Bytes, index: usize, instr: &Instr) -> Result<(), NoMemory>
    ensures { OnOk result (text.new ≡ text.old ++ instr_line index instr.now) }
{
    put_instr_head(alloc, text, index, instr.op)?;
    put_operand(alloc, text, instr.to)?;
    put_operand(alloc, text, instr.left)?;
    put_operand(alloc, text, instr.right)?;
    text.push(b'\n')?;
    Ok(())
}

fn put_instr_head(alloc: Global, text: &mut Bytes, index: usize, op: Op) -> Result<(), NoMemory>
    ensures { OnOk result (text.new ≡ text.old ++ instr_head index op) }
{
    let head = format!(in alloc; "{index} {}", op_text(op))?;
    text.extend(head.as_bytes())?;
    Ok(())
}

fn put_operand(alloc: Global, text: &mut Bytes, operand: Reg) -> Result<(), NoMemory>
    ensures { OnOk result (text.new ≡ text.old ++ operand_text operand) }
{
    text.push(b' ')?;
    match operand {
        Reg::Imm(value) => put_numbered(alloc, text, "#", value),
        Reg::Prim(n) => put_numbered(alloc, text, "prim", u64::from(n)),
        Reg::Report(i) => put_numbered(alloc, text, "report", u64::from(i)),
        Reg::Control(i) => put_numbered(alloc, text, "control", u64::from(i)),
        Reg::Implicit(which) => put_implicit(text, which),
        Reg::Local(i) => put_numbered(alloc, text, "local", u64::from(i)),
        Reg::Temp(i) => put_numbered(alloc, text, "temp", u64::from(i)),
    }
}

fn put_numbered(alloc: Global, text: &mut Bytes, name: &str, n: u64) -> Result<(), NoMemory>
    ensures { OnOk result (text.new ≡ text.old ++ numbered_text name.now n) }
{
    let numbered = format!(in alloc; "{name}{n}")?;
    text.extend(numbered.as_bytes())?;
    Ok(())
}

fn put_implicit(text: &mut Bytes, which: Implicit) -> Result<(), NoMemory>
    ensures { OnOk result (text.new ≡ text.old ++ implicit_text which) }
{
    text.extend(implicit_text(which).as_bytes())?;
    Ok(())
}

fn keeping_text(volatile: bool) -> &'static str
    ensures { result.now ≡ keeping_text volatile }
{
    if volatile { "volatile" } else { "fixed" }
}

fn implicit_text(which: Implicit) -> &'static str
    ensures { result.now ≡ implicit_text which }
{
    match which {
        Implicit::Flag => "flag",
        Implicit::Fall => "fall",
        Implicit::Send => "send",
        Implicit::Micros => "micros",
        Implicit::Cwnd => "cwnd",
        Implicit::Rate => "rate",
    }
}

fn op_text(op: Op) -> &'static str
    ensures { result.now ≡ op_text op }
{
    match op {
        Op::Pair(operation) => operation.word(),
        Op::Bind => "bind",
        Op::If => "if",
        Op::NotIf => "notif",
        Op::Ewma => "ewma",
    }
}

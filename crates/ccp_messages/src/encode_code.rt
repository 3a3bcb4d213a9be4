//! The parts of a code, put at a place of bytes. Each call gives the place after what it put.

ghost use Rattle.std.specs.Prelude.{◌≡◌, ◌+◌, ◌*◌, ◌^◌, ◌<◌, ◌≤◌, length};
ghost use Rattle.std.specs.List.{AllByRecursion};
ghost use Rattle.reply_frames.specs.declared.outline.Version.TheVariants.{One};
ghost use Rattle.reply_frames.specs.FrameBytes.{start_bytes, event_bytes, register_bytes};
ghost use Rattle.reply_frames.specs.FrameBytes.{instruction_bytes, body_bytes};
ghost use Rattle.reply_frames.specs.Writing.{Wrote};
ghost use Rattle.ccp_messages.specs.CodeParts.{start_part, event_part, register_part, instruction_part};
ghost use Rattle.ccp_messages.specs.CodeParts.{starts_bytes, events_bytes, instrs_bytes, code_body, code_size};
ghost use Rattle.ccp_messages.specs.Messages.{IsTypedStart, IsTypedEvent, IsTypedReg, IsTypedInstr, IsTypedCode};

use crate::code_parts::register_numbers;
use crate::writing::{flag, put8, put16, put32, put64};
use reg_code::{Code, Event, Instr, Packed, Reg, Start};

/// Puts how a register starts.
fn put_start(out: &mut [u8], at: usize, start: Start) -> usize
    requires { at + 9 ≤ length out.old }
    ensures wrote { Wrote at (start_bytes (start_part start)) out.old out.new result }
    ensures typed { IsTypedStart start }
{
    let end = put8(out, at, flag(start.volatile));
    put64(out, end, start.value)
}

/// Puts how registers start, one after the other.
fn put_starts(out: &mut [u8], at: usize, starts: &[Start]) -> usize
    requires { at + 9 * length starts.now ≤ length out.old }
    ensures wrote { Wrote at (starts_bytes starts.now) out.old out.new result }
    ensures end { result ≡ at + 9 * length starts.now }
    ensures typed { AllByRecursion IsTypedStart starts.now }
{
    let mut end = at;
    for start in starts {
        end = put_start(out, end, *start);
    }
    end
}

/// Puts an event.
fn put_event(out: &mut [u8], at: usize, event: Event) -> usize
    requires { at + 4 ≤ length out.old }
    ensures wrote { Wrote at (event_bytes (event_part event)) out.old out.new result }
    ensures typed { IsTypedEvent event }
{
    let end = put16(out, at, event.condition);
    put16(out, end, event.body)
}

/// Puts events, one after the other.
fn put_events(out: &mut [u8], at: usize, events: &[Event]) -> usize
    requires { at + 4 * length events.now ≤ length out.old }
    ensures wrote { Wrote at (events_bytes events.now) out.old out.new result }
    ensures end { result ≡ at + 4 * length events.now }
    ensures typed { AllByRecursion IsTypedEvent events.now }
{
    let mut end = at;
    for event in events {
        end = put_event(out, end, *event);
    }
    end
}

/// Puts a register.
fn put_register(out: &mut [u8], at: usize, reg: Reg) -> usize
    requires { at + 9 ≤ length out.old }
    ensures wrote { Wrote at (register_bytes (register_part reg)) out.old out.new result }
    ensures typed { IsTypedReg reg }
{
    let (class, number) = register_numbers(reg);
    let end = put8(out, at, class);
    put64(out, end, number)
}

/// Puts an instruction.
fn put_instr(out: &mut [u8], at: usize, instr: Instr) -> usize
    requires { at + 28 ≤ length out.old }
    ensures wrote { Wrote at (instruction_bytes (instruction_part instr)) out.old out.new result }
    ensures typed { IsTypedInstr instr }
{
    let end = put8(out, at, instr.op.number());
    let end = put_register(out, end, instr.to);
    let end = put_register(out, end, instr.left);
    put_register(out, end, instr.right)
}

/// Puts instructions, one after the other.
fn put_instrs(out: &mut [u8], at: usize, instrs: &[Packed]) -> usize
    requires { at + 28 * length instrs.now ≤ length out.old }
    ensures wrote { Wrote at (instrs_bytes instrs.now) out.old out.new result }
    ensures end { result ≡ at + 28 * length instrs.now }
    ensures typed { AllByRecursion IsTypedInstr instrs.now }
{
    let mut end = at;
    for instr in instrs {
        end = put_instr(out, end, instr.instr());
    }
    end
}

/// Puts a program's number and its code.
pub fn put_code(out: &mut [u8], at: usize, program: u32, code: &Code) -> usize
    requires { at + code_size code.now ≤ length out.old }
    ensures typed { (program < 2 ^ 32) × IsTypedCode code.now }
    ensures wrote { Wrote at (body_bytes One (code_body program code.now)) out.old out.new result }
{
    let end = put32(out, at, program);
    let end = put_starts(out, end, code.reports());
    let end = put_starts(out, end, code.controls());
    let end = put_events(out, end, code.events());
    put_instrs(out, end, code.instrs())
}

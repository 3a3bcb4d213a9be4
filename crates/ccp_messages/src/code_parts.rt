//! The registers of a code as an Install frame has them: classes and implicit registers are numbered in the order of
//! `Reg` and `Implicit`.

ghost use Rattle.std.specs.Prelude.{◌≡◌, ◌<◌, ◌^◌};
ghost use Rattle.reply_frames.specs.Frames.{IsSmall};
ghost use Rattle.ccp_messages.specs.CodeParts.{implicit_number, implicit_of, register_part, decoded_reg};

use reg_code::{Implicit, Reg};
use reply_frames::Register;

/// The number of an implicit register.
pub fn implicit_number(which: Implicit) -> u8
    ensures { result ≡ implicit_number which }
{
    match which {
        Implicit::Flag => 0,
        Implicit::Fall => 1,
        Implicit::Send => 2,
        Implicit::Micros => 3,
        Implicit::Cwnd => 4,
        Implicit::Rate => 5,
    }
}

/// The implicit register of a number below 6.
pub fn implicit_numbered(number: u64) -> Implicit
    ensures { result ≡ implicit_of number }
{
    match number {
        0 => Implicit::Flag,
        1 => Implicit::Fall,
        2 => Implicit::Send,
        3 => Implicit::Micros,
        4 => Implicit::Cwnd,
        _ => Implicit::Rate,
    }
}

/// A register's class, and its number or its immediate value.
pub fn register_numbers(reg: Reg) -> (u8, u64)
    ensures { record { class = result.0; number = result.1 } ≡ register_part reg }
{
    match reg {
        Reg::Imm(value) => (0, value),
        Reg::Prim(number) => (1, u64::from(number)),
        Reg::Report(number) => (2, u64::from(number)),
        Reg::Control(number) => (3, u64::from(number)),
        Reg::Implicit(which) => (4, u64::from(implicit_number(which))),
        Reg::Local(number) => (5, u64::from(number)),
        Reg::Temp(number) => (6, u64::from(number)),
    }
}

/// The register that a part of an instruction is.
pub fn reg_of(part: Register) -> Reg
    requires { IsSmall part }
    ensures { result ≡ decoded_reg part }
{
    let number = part.number;
    match part.class {
        0 => Reg::Imm(number),
        1 => Reg::Prim(number as u8),
        2 => Reg::Report(number as u8),
        3 => Reg::Control(number as u8),
        4 => Reg::Implicit(implicit_numbered(number)),
        5 => Reg::Local(number as u8),
        _ => Reg::Temp(number as u8),
    }
}

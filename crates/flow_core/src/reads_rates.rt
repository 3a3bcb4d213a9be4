//! Whether a program reads one of the two rates of an acknowledgement.
ghost use Rattle.std.specs.Prelude.{◌≡◌};
ghost use Rattle.flow_core.specs.ReadsRates.{is_rate_number, is_rate, instr_reads_rates, code_reads_rates};
ghost use Rattle.flow_core.specs.ReadsRates.{case_reads_rates};

use crate::case::Case;
use reg_code::{Code, Instr, Reg};

/// The number of the primitive `rate_incoming`.
const INCOMING: u8 = 11;

/// The number of the primitive `rate_outgoing`.
const OUTGOING: u8 = 12;

impl Case {
    /// Whether a program of the case reads one of the two rates of an acknowledgement. If none does, a flow does the same
    /// without them. The whole code is read, so this is called once for each flow.
    pub fn reads_rates(&self) -> bool
        ensures { result ≡ case_reads_rates self.now }
    {
        code_reads_rates(&self.ss.code.code) || code_reads_rates(&self.ca.code.code)
    }
}

/// Whether an instruction of the code reads a rate, in a condition or in a body.
fn code_reads_rates(code: &Code) -> bool
    ensures { result ≡ code_reads_rates code.now }
{
    let mut left = code.instrs();
    while let Some((first, rest)) = left.split_first() {
        if instr_reads_rates(first.instr()) {
            return true;
        }
        left = rest;
    }
    false
}

/// Whether one of the instruction's registers is a rate. The target counts as well, since `Ewma` reads it.
fn instr_reads_rates(instr: Instr) -> bool
    ensures { result ≡ instr_reads_rates instr }
{
    is_rate(instr.left) || is_rate(instr.right) || is_rate(instr.to)
}

fn is_rate(reg: Reg) -> bool
    ensures { result ≡ is_rate reg }
{
    match reg {
        Reg::Prim(number) => is_rate_number(number),
        Reg::Imm(_)
        | Reg::Report(_)
        | Reg::Control(_)
        | Reg::Implicit(_)
        | Reg::Local(_)
        | Reg::Temp(_) => false,
    }
}

fn is_rate_number(number: u8) -> bool
    ensures { result ≡ is_rate_number number }
{
    number == INCOMING || number == OUTGOING
}

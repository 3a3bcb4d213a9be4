//! The kinds of faults by number.

ghost use Rattle.std.specs.Prelude.{◌≡◌, ◌≤◌};
ghost use Rattle.reply_frames.specs.Bodies.{fault_number};

use ccp_base::FaultKind;

/// The number of a kind of fault, from 0 to 2.
pub fn fault_number(kind: FaultKind) -> u8
    ensures { result ≡ fault_number kind }
{
    match kind {
        FaultKind::Overflow => 0,
        FaultKind::Underflow => 1,
        FaultKind::ZeroDivisor => 2,
    }
}

/// The kind of fault of a number from 0 to 2.
pub(crate) fn fault_numbered(number: u8) -> FaultKind
    requires { number ≤ 2 }
    ensures { fault_number result ≡ number }
{
    match number {
        0 => FaultKind::Overflow,
        1 => FaultKind::Underflow,
        _ => FaultKind::ZeroDivisor,
    }
}

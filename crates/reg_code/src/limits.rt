//! The limits of register code, and the law that they are those of the rules.
ghost use Rattle.std.specs.Prelude.{◌≡◌, ◌+◌};
ghost use Rattle.ccp_base.specs.Limits.{most_controls, most_blocks, most_instrs, most_locals, most_temps, most_tenths};
ghost use Rattle.reg_code.specs.Places.{all_places, immediates_at};

use crate::places::{ALL, RIGHT};

/// The most control variables of a code.
pub const CONTROLS: usize = 64;

/// The most events of a code.
pub const EVENTS: usize = 64;

/// The most instructions of a code.
pub const INSTRS: usize = 256;

/// How many locals the body of an event can have.
pub const LOCALS: u8 = 8;

/// How many temporaries an event can have.
pub const TEMPS: u8 = 8;

/// The largest weight of `Op::Ewma`, in tenths.
pub const TENTHS: u64 = 10;

/// Each limit is that of the rules, and the places are those of the definitions.
pub fn limits_hold()
    ensures controls { CONTROLS ≡ most_controls }
    ensures events { EVENTS ≡ most_blocks }
    ensures instrs { INSTRS ≡ most_instrs }
    ensures locals { LOCALS ≡ most_locals }
    ensures temps { TEMPS ≡ most_temps }
    ensures tenths { TENTHS ≡ most_tenths }
    ensures places { ALL ≡ all_places }
    ensures right { RIGHT ≡ immediates_at + 1 }
{}

//! The values that a line gives its primitives, each at most once and within its range.
ghost use Rattle.std.specs.Prelude.{◌≡◌, ◌<◌, Some, None, length};
ghost use Rattle.std.specs.Option.{ForSome};
ghost use Rattle.ccp_base.specs.Limits.{primitive_count};
ghost use Rattle.fold_run.specs.AckLine.{no_values, with_number, some_if};

use ccp_base::{PRIMITIVES, is_flag};

/// How many values a line may give: one for each primitive.
pub const VALUES: usize = PRIMITIVES as usize;

/// The values that a line gives, each at the number of its primitive.
#[derive(Clone, Copy)]
pub struct LineValues {
    /// The values, 0 if the line gives none.
    pub numbers: [u64; VALUES],
    /// Which of them the line gives.
    pub named: [bool; VALUES],
}

impl LineValues {
    /// No value.
    pub fn none() -> LineValues
        ensures { result ≡ no_values }
    {
        LineValues {
            numbers: [0; VALUES],
            named: [false; VALUES],
        }
    }

    /// Takes one more value. Returns whether the line hasn't given it before, and it is within its range.
    pub fn take(&mut self, number: usize, value: u64) -> bool
        requires { number < primitive_count }
        ensures { some_if result self.new ≡ with_number self.old number value }
    {
        if self.named[number] || (value > 1 && is_flag(number as u32)) {
            return false;
        }
        self.numbers[number] = value;
        self.named[number] = true;
        true
    }
}

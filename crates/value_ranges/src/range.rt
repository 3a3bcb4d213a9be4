//! A range of values by its ends, and what an operation makes of two of them.
ghost use Rattle.std.specs.Prelude.{◌≤◌};

use ccp_base::FaultKind;

/// The values from `lo` to `hi`, both included: there is at least one.
#[derive(Clone, Copy, PartialEq, Eq)]
pub struct Range {
    pub lo: u64,
    pub hi: u64,
    ghost ordered: { lo ≤ hi },
}

/// What an operation makes of the values of two ranges.
#[derive(Clone, Copy)]
pub struct Reach {
    /// The fault that it can have; an operation has at most one kind.
    pub fault: Option<FaultKind>,
    /// The range of its results, None if it always has its fault.
    pub values: Option<Range>,
}

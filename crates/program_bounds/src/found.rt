//! What was found of a program.
use ccp_base::Sequence;
use range_cases::{Kept, Listed};

/// The faults that can be and the ranges at a report, as far as they were found.
#[derive(Drop)]
pub struct Found {
    pub faults: Sequence<Listed>,
    /// The ranges at a report, None if no report is made.
    pub report: Option<Kept>,
}

/// The bounds of a program's epoch.
#[derive(Drop)]
pub struct Bounds {
    pub found: Found,
    /// The ranges between acknowledgements, the start included.
    pub now: Kept,
    /// After how many acknowledgements the ranges stay as they are, None if they may still grow.
    pub steady: Option<u32>,
}

//! A case: the range of each variable at one point of an acknowledgement.
ghost use Rattle.std.specs.Prelude.{◌≤◌};

use value_ranges::Range;

/// The ranges of what a program keeps from one acknowledgement to the next. Names past the declared ones are 0.
#[derive(Clone, Copy)]
pub struct Kept {
    /// Of the fields, in order of declaration.
    pub fields: [Range; 64],
    /// Of the control variables, in order of declaration.
    pub controls: [Range; 64],
    /// Of the congestion window, in bytes.
    pub cwnd: Range,
    /// Of the pacing rate, in bytes a second.
    pub rate: Range,
}

/// How many fields and control variables a program declares.
#[derive(Clone, Copy)]
pub struct Sizes {
    pub fields: u32,
    pub controls: u32,
    ghost few_fields: { fields ≤ 64 },
    ghost few_controls: { controls ≤ 64 },
}

/// What is known at one point of an acknowledgement: a range for each variable, and what the run has asked for.
#[derive(Clone, Copy)]
pub struct Case {
    pub kept: Kept,
    pub sizes: Sizes,
    /// Of the body's locals; one without a value is read as 0.
    pub locals: [Range; 8],
    /// Of the primitives of the acknowledgement, by their number.
    pub primitives: [Range; 15],
    /// Of the time since time zero, in microseconds.
    pub micros: Range,
    /// Whether a report was asked for.
    pub asked: bool,
    /// Whether the body falls through.
    pub falls: bool,
}

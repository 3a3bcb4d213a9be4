//! The rules of acceptance, and the parts of an event and sizes of a code that they speak of.
/// A part of an event.
#[derive(Clone, Copy)]
pub enum Part {
    Condition,
    Body,
}

/// How many report fields and control variables a code has.
#[derive(Clone, Copy)]
pub struct Sizes {
    pub reports: usize,
    pub controls: usize,
}

/// A rule of acceptance.
#[derive(Clone, Copy, PartialEq, Eq)]
pub enum Rule {
    /// There are at most 64 reports, 64 controls, 64 events and 256 instructions.
    Counts,
    /// Each condition has an instruction, and the events have all the instructions that there are.
    Events,
    /// Each register exists: the number of a report or of a control is below how many the code has, that of a
    /// primitive below how many there are, that of a local or of a temporary below 8.
    Range,
    /// `Flag`, `Fall` and `Send` aren't read.
    Readable,
    /// A temporary is read only if it was written before in the event.
    Temporary,
    /// A local is read only if it was written before in the event.
    Local,
    /// The weight of `Ewma` is an immediate from 0 to 10.
    Weight,
    /// The second operand of `Bind` is the immediate 0.
    BindRight,
    /// The operation may write its target at its place, and a condition ends by writing `Flag`.
    Writable,
}

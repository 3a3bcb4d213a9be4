//! The result of a program's fold: its reports, its fault, its end, and the instructions that ran.
use ccp_base::{Notice, Reports};
use report_lines::End;

/// The result of a program's fold over acknowledgements.
#[derive(Drop)]
pub struct Folded {
    /// The reports in the order in which they were made.
    pub reports: Reports,
    /// The fault that stopped the program, if there was one.
    pub fault: Option<Notice>,
    pub end: End,
    /// How many instructions the code ran.
    pub ran: u64,
}

//! The lines that the texts of flows share: reports, faults and ends, with a program's fields.
#![tactic(auto)]

mod end_line;
mod fault_line;
mod fields_text;
mod flow_line;
mod number;
mod report_line;

pub use end_line::{End, put_end, put_end_head, put_end_tail};
pub use fault_line::{put_fault, put_fault_head, put_fault_line};
pub use fields_text::{put_fields, put_window};
pub use flow_line::put_flow_head;
pub use number::{put_labelled, put_number};
pub use report_line::{put_report, put_report_head, put_report_tail, put_reports};

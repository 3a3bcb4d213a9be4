//! The messages between agent and datapath, each about one flow.
use crate::reason::Reason;
use ccp_base::{Ack, Fields, Notice, Report};
use reg_code::Code;

/// What agent and datapath exchange about a flow.
#[derive(Drop)]
pub enum Message {
    /// The flow begins.
    Create {
        flow: u32,
        /// The size of a segment, in bytes.
        mss: u32,
        /// The congestion window, in bytes.
        cwnd: u64,
    },
    /// A report of a span of acknowledgements.
    Measure(Report),
    /// A code for the datapath to verify and to keep under the program's number.
    Install {
        flow: u32,
        program: u32,
        code: Code,
    },
    /// Values for the program that runs.
    Update {
        flow: u32,
        values: Fields,
    },
    /// The program is to run, and to start with the values.
    Change {
        flow: u32,
        program: u32,
        values: Fields,
    },
    /// An acknowledgement at which the program faulted.
    Fault(Notice),
    /// An acknowledgement.
    Ack {
        flow: u32,
        ack: Ack,
    },
    /// A frame that was refused.
    Refused {
        flow: u32,
        reason: Reason,
        /// What of the frame was refused; by the reason it is a program, an instruction, a value's place or 0.
        index: u32,
    },
}

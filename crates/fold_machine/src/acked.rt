//! What the machine answers to an acknowledgement, and to a value for a control variable that doesn't exist.
use ccp_base::FaultKind;

/// The outcome of an acknowledgement.
#[derive(Clone, Copy, PartialEq, Eq, Debug)]
pub enum Acked {
    /// No report was asked for.
    Quiet,
    /// A report was made. Its fields are the machine's last report.
    Reported,
    /// A report was asked for, but there was no room for it.
    Held,
    /// The instruction with this index had no result. The program is stopped until the next start.
    Faulted(FaultKind, u16),
    /// An earlier acknowledgement since the last start faulted, so this one wasn't run.
    Stopped,
}

/// The pair at this place of the values, counted from 0, is the first that names a control variable which the
/// code doesn't have.
#[derive(Clone, Copy, PartialEq, Eq)]
pub struct BadRegister(pub u32);

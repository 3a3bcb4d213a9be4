//! The reasons for which a frame is refused, and their numbers.

ghost use Rattle.std.specs.Prelude.{◌≡◌, ◌≤◌, Some, IfSome};
ghost use Rattle.ccp_base.specs.Limits.{most_reason};
ghost use Rattle.ccp_messages.specs.Reasons.{number_of_reason, reason_at};

/// Why a datapath refuses a frame, in the order in which it tries the reasons, but for the last two. A refusal has an
/// index, which depends on its reason.
#[derive(Clone, Copy, PartialEq, Eq)]
pub enum Reason {
    /// A Create is of a flow above 63. The index is 0.
    FlowAbove,
    /// A Create is of a flow that exists. The index is 0.
    FlowExists,
    /// A Change, an Update or an Ack is of a flow that doesn't exist. The index is 0.
    NoFlow,
    /// An Install or a Change is of a program above 15. The index is the program.
    ProgramAbove,
    /// An Install is of a program that exists. The index is the program.
    ProgramExists,
    /// A Change is to a program that doesn't exist, and the index is the program; or an Update is of a flow without a
    /// program, and the index is 0.
    NoProgram,
    /// An Install has a code that isn't accepted. The index is the one that the first broken rule names.
    NotAccepted,
    /// A Change or an Update has a value for a register that the program doesn't have. The index is the place of the
    /// first such value.
    NoRegister,
    /// A Change of a flow of version 1 is to a program of more than 32 fields. The index is the program.
    TooWide,
}

impl Reason {
    /// Its number, from 1 to 9; `Reason::of_number` gives the reason back.
    pub fn number(self) -> u8
        ensures number { result ≡ number_of_reason self }
        ensures back { reason_at result ≡ Some self }
        ensures least { 1 ≤ result }
        ensures most { result ≤ most_reason }
    {
        match self {
            Reason::FlowAbove => 1,
            Reason::FlowExists => 2,
            Reason::NoFlow => 3,
            Reason::ProgramAbove => 4,
            Reason::ProgramExists => 5,
            Reason::NoProgram => 6,
            Reason::NotAccepted => 7,
            Reason::NoRegister => 8,
            Reason::TooWide => 9,
        }
    }

    /// The reason of a number from 1 to 9; None for any other number.
    pub fn of_number(number: u8) -> Option<Reason>
        ensures reason { result ≡ reason_at number }
        ensures again { IfSome result (λ reason. number_of_reason reason ≡ number) }
    {
        match number {
            1 => Some(Reason::FlowAbove),
            2 => Some(Reason::FlowExists),
            3 => Some(Reason::NoFlow),
            4 => Some(Reason::ProgramAbove),
            5 => Some(Reason::ProgramExists),
            6 => Some(Reason::NoProgram),
            7 => Some(Reason::NotAccepted),
            8 => Some(Reason::NoRegister),
            9 => Some(Reason::TooWide),
            _ => None,
        }
    }
}

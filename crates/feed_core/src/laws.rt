//! The law of refused messages: the condition of each reason, row by row.
ghost use Rattle.feed_core.specs.Refusals.{ComesIf, ChangesNothing};
ghost use Rattle.feed_core.specs.Refusals.{FlowAbove, FlowExists, NoFlow, ProgramAbove, ProgramExists};
ghost use Rattle.feed_core.specs.Refusals.{NoProgram, NotAccepted, NoRegister, TooWide};

use ccp_messages::Reason;

/// The law of refused messages: a message is refused for a reason exactly if the reason's row says so, with the row's
/// index; and a refused message changes nothing but the count of messages.
pub fn refusals_law()
    ensures flow_above { ComesIf Reason.FlowAbove FlowAbove }
    ensures flow_exists { ComesIf Reason.FlowExists FlowExists }
    ensures no_flow { ComesIf Reason.NoFlow NoFlow }
    ensures program_above { ComesIf Reason.ProgramAbove ProgramAbove }
    ensures program_exists { ComesIf Reason.ProgramExists ProgramExists }
    ensures no_program { ComesIf Reason.NoProgram NoProgram }
    ensures not_accepted { ComesIf Reason.NotAccepted NotAccepted }
    ensures no_register { ComesIf Reason.NoRegister NoRegister }
    ensures too_wide { ComesIf Reason.TooWide TooWide }
    ensures changes_nothing { ChangesNothing }
{}

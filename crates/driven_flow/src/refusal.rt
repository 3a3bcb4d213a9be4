//! Why a frame of a session is refused.
ghost use Rattle.std.specs.Prelude.{◌≡◌, true, None, Some, IfOk, IfSome};
ghost use Rattle.driven_flow.specs.Driven.{is_known};
ghost use Rattle.driven_flow.specs.Session.{program_meant};

use crate::programs::{Programs, is_known};
use ccp_messages::Reason;

/// The most programs that a frame can name: 0 to 15.
const PROGRAMS: u32 = 16;

/// Why a frame is refused.
#[derive(Clone, Copy)]
pub struct Refusal {
    pub reason: Reason,
    /// What of the frame is refused; by the reason it is a program, a value's place or 0.
    pub index: u32,
}

/// The program that the values of a change or an update are for, where `running` runs, if any program does: `changed`,
/// or the running one if it is no change.
pub(crate) fn program_meant(
    programs: &Programs,
    running: Option<u32>,
    changed: Option<u32>,
) -> Result<u32, Refusal>
    requires { IfSome running (λ program. is_known programs.now program ≡ true) }
    ensures meant { result ≡ program_meant programs.now running changed }
    ensures known { IfOk result (λ program. is_known programs.now program ≡ true) }
{
    match changed {
        Some(program) => program_changed(programs, program),
        None => running.ok_or(Refusal {
            reason: Reason::NoProgram,
            index: 0,
        }),
    }
}

/// The program with this number, if a change can name it.
fn program_changed(programs: &Programs, program: u32) -> Result<u32, Refusal>
    ensures meant { result ≡ program_meant programs.now None (Some program) }
    ensures known { IfOk result (λ program. is_known programs.now program ≡ true) }
{
    if program >= PROGRAMS {
        return Err(Refusal {
            reason: Reason::ProgramAbove,
            index: program,
        });
    }
    if is_known(programs, program) {
        Ok(program)
    } else {
        Err(Refusal {
            reason: Reason::NoProgram,
            index: program,
        })
    }
}

//! How the commands of a body are compiled into lines.
ghost use Rattle.std.specs.Prelude.{◌≡◌, ◌++◌, ◌∷◌, [], ◌≤◌, IsTrue, OnOk, map};
ghost use Rattle.ccp_base.specs.Limits.{most_temps};
ghost use Rattle.portus_core.specs.Programs.{action_of};
ghost use Rattle.reg_code.specs.declared.code.Reg.TheVariants as reg;
ghost use Rattle.reg_compiler.specs.Needs.{action_need, body_need};
ghost use Rattle.reg_compiler.specs.Numbered.{is_numbered_action, is_numbered_body};
ghost use Rattle.reg_compiler.specs.CompiledCode.{bind_line, action_lines, body_lines};

use crate::expression::{operand, operation_lines, value_lines};
use crate::line::{Lines, bind_line, operation_line};
use crate::registers::reg_of;
use portus_core::Cmd;
use reg_code::{Implicit, Op, Reg};
use std::alloc::AllocError;

/// Appends the lines of a body's commands.
pub fn body(cmds: &[Cmd], lines: &mut Lines) -> Result<(), AllocError>
    requires names { IsTrue (is_numbered_body (map action_of cmds.now)) }
    requires fits { body_need (map action_of cmds.now) ≤ most_temps }
    ensures { OnOk result (lines.new ≡ lines.old ++ body_lines (map action_of cmds.now)) }
{
    for cmd in cmds {
        command(cmd, lines)?;
    }
    Ok(())
}

/// Appends the lines of a command.
fn command(cmd: &Cmd, lines: &mut Lines) -> Result<(), AllocError>
    requires names { IsTrue (is_numbered_action (action_of cmd.now)) }
    requires fits { action_need (action_of cmd.now) ≤ most_temps }
    ensures { OnOk result (lines.new ≡ lines.old ++ action_lines (action_of cmd.now)) }
{
    match cmd {
        Cmd::Set(var, expr) => value_lines(expr, reg_of(*var), 0, lines),
        Cmd::SetIf(place, var, condition, expr) => {
            operation_lines(Op::If, reg_of(*var), *place, condition, expr, 0, lines)
        }
        Cmd::SetUnless(place, var, condition, expr) => {
            operation_lines(Op::NotIf, reg_of(*var), *place, condition, expr, 0, lines)
        }
        Cmd::Ewma(place, var, weight, expr) => {
            let value = operand(expr, 0, lines)?;
            let weight = Reg::Imm(*weight);
            lines.push(operation_line(Op::Ewma, reg_of(*var), weight, value, *place))
        }
        Cmd::ZeroMicros => set_implicit(Implicit::Micros, 0, lines),
        Cmd::Report => set_implicit(Implicit::Send, 1, lines),
        Cmd::Fall => set_implicit(Implicit::Fall, 1, lines),
    }
}

fn set_implicit(which: Implicit, value: u64, lines: &mut Lines) -> Result<(), AllocError>
    ensures { OnOk result (lines.new ≡ lines.old ++ bind_line (reg.Implicit which) (reg.Imm value) ∷ []) }
{
    lines.push(bind_line(Reg::Implicit(which), Reg::Imm(value)))
}

//! The evaluation of one command of a block's body.
ghost use Rattle.std.specs.Prelude.{IsTrue};
ghost use Rattle.portus_core.specs.Programs.{action_of};
ghost use Rattle.portus_core.specs.Runnable.{is_runnable};
ghost use Rattle.portus_core.specs.Command.{command_of};
ghost use Rattle.portus_core.specs.Progress.{going_of, KeepsShape, RunsAs};

use crate::env::Env;
use crate::program::Cmd;
use crate::progress::Progress;
use crate::value::Fault;
use ccp_base::{Ack, is_true, moving_average};

/// Runs a command. The condition and the value are both evaluated, whatever the condition is.
pub fn command(cmd: &Cmd, ack: &Ack, env: &mut Env, progress: &mut Progress) -> Result<(), Fault>
    requires { IsTrue (is_runnable (action_of cmd.now)) }
    ensures runs { RunsAs result env.new progress.new
        (command_of (action_of cmd.now) ack.entry.now (going_of env.old progress.old)) }
    ensures shape { KeepsShape env.old env.new }
{
    match cmd {
        Cmd::Set(var, expr) => {
            let value = progress.value(expr, env, ack)?;
            progress.write(env, *var, value);
            Ok(())
        }
        Cmd::SetIf(_, var, condition, expr) => {
            let held = progress.value(condition, env, ack)?;
            let value = progress.value(expr, env, ack)?;
            progress.write_where(env, is_true(held), *var, value);
            Ok(())
        }
        Cmd::SetUnless(_, var, condition, expr) => {
            let held = progress.value(condition, env, ack)?;
            let value = progress.value(expr, env, ack)?;
            progress.write_where(env, !is_true(held), *var, value);
            Ok(())
        }
        Cmd::Ewma(place, var, weight, expr) => {
            let value = progress.value(expr, env, ack)?;
            let old = progress.read(*var, env, ack);
            let mixed = moving_average(*weight, old, value).map_err(|kind| (kind, *place))?;
            progress.write(env, *var, mixed);
            Ok(())
        }
        Cmd::ZeroMicros => {
            env.zero = ack.now;
            Ok(())
        }
        Cmd::Report => {
            progress.asked = true;
            Ok(())
        }
        Cmd::Fall => {
            progress.falls = true;
            Ok(())
        }
    }
}

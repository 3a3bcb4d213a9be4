//! The evaluation of blocks in order, up to the first whose body runs and doesn't fall through.
ghost use Rattle.std.specs.Prelude.{IsTrue, map};
ghost use Rattle.portus_core.specs.Programs.{action_of, part_of};
ghost use Rattle.portus_core.specs.Runnable.{is_runnable_body, are_runnable};
ghost use Rattle.portus_core.specs.Command.{run_commands};
ghost use Rattle.portus_core.specs.Blocks.{blocks_of};
ghost use Rattle.portus_core.specs.Progress.{going_of, KeepsShape, RunsAs};

use crate::command::command;
use crate::env::Env;
use crate::program::{Block, Cmd};
use crate::progress::Progress;
use crate::value::Fault;
use ccp_base::{Ack, is_true};

/// Runs the blocks in order, up to the first one whose body runs and doesn't fall through.
pub fn blocks(
    blocks: &[Block],
    ack: &Ack,
    env: &mut Env,
    progress: &mut Progress,
) -> Result<(), Fault>
    requires { IsTrue (are_runnable (map part_of blocks.now)) }
    ensures runs { RunsAs result env.new progress.new
        (blocks_of (map part_of blocks.now) ack.entry.now (going_of env.old progress.old)) }
    ensures shape { KeepsShape env.old env.new }
{
    for block in blocks {
        if is_true(progress.enter_block(&block.condition, env, ack)?) {
            body(&block.body, ack, env, progress)?;
            if !progress.falls {
                return Ok(());
            }
        }
    }
    Ok(())
}

/// Runs the commands in turn.
fn body(cmds: &[Cmd], ack: &Ack, env: &mut Env, progress: &mut Progress) -> Result<(), Fault>
    requires { IsTrue (is_runnable_body (map action_of cmds.now)) }
    ensures runs { RunsAs result env.new progress.new
        (run_commands (map action_of cmds.now) ack.entry.now (going_of env.old progress.old)) }
    ensures shape { KeepsShape env.old env.new }
{
    for cmd in cmds {
        command(cmd, ack, env, progress)?;
    }
    Ok(())
}

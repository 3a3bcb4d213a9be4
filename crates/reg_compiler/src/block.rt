//! How blocks are compiled: each becomes an event with the lines of its condition and body.
ghost use Rattle.std.specs.Prelude.{◌≡◌, ◌+◌, ◌++◌, ◌≤◌, IsTrue, IfOk, OnOk, length, map};
ghost use Rattle.portus_core.specs.Programs.{term_of, action_of, part_of};
ghost use Rattle.ccp_base.specs.Limits.{most_temps, most_instrs};
ghost use Rattle.reg_compiler.specs.Needs.{need_of, body_need, parts_need};
ghost use Rattle.reg_compiler.specs.Numbered.{is_numbered_term, is_numbered_body, are_numbered};
ghost use Rattle.reg_compiler.specs.CompiledCode.{condition_lines, body_lines, block_lines, block_size, lines_of, event_of};

use crate::command::body;
use crate::expression::value_lines;
use crate::line::Lines;
use ccp_base::Sequence;
use portus_core::{Block, Cmd, Expr};
use reg_code::{Event, Implicit, Reg};
use std::alloc::AllocError;

/// Events in order.
pub type Events = Sequence<Event>;

/// Appends the lines of blocks, and their events.
pub fn blocks(blocks: &[Block], events: &mut Events, lines: &mut Lines) -> Result<(), AllocError>
    requires names { IsTrue (are_numbered (map part_of blocks.now)) }
    requires fits { parts_need (map part_of blocks.now) ≤ most_temps }
    requires size { length (lines_of (map part_of blocks.now)) ≤ most_instrs }
    ensures events { OnOk result (events.new ≡ events.old ++ map event_of (map part_of blocks.now)) }
    ensures lines { OnOk result (lines.new ≡ lines.old ++ lines_of (map part_of blocks.now)) }
{
    for item in blocks {
        let event = block(&item.condition, &item.body, lines)?;
        events.push(event)?;
    }
    Ok(())
}

/// Appends the lines of a block's condition and body, and returns the block's event.
fn block(condition: &Expr, cmds: &[Cmd], lines: &mut Lines) -> Result<Event, AllocError>
    requires condition_names { IsTrue (is_numbered_term (term_of condition.now)) }
    requires body_names { IsTrue (is_numbered_body (map action_of cmds.now)) }
    requires condition_fits { need_of (term_of condition.now) ≤ most_temps }
    requires body_fits { body_need (map action_of cmds.now) ≤ most_temps }
    requires size { block_size (term_of condition.now) (map action_of cmds.now) ≤ most_instrs }
    ensures condition { IfOk result (λ event. event.condition ≡ length (condition_lines (term_of condition.now))) }
    ensures body { IfOk result (λ event. event.body ≡ length (body_lines (map action_of cmds.now))) }
    ensures lines { OnOk result
        (lines.new ≡ lines.old ++ block_lines (term_of condition.now) (map action_of cmds.now)) }
{
    let start = lines.len();
    value_lines(condition, Reg::Implicit(Implicit::Flag), 0, lines)?;
    let middle = lines.len();
    body(cmds, lines)?;
    Ok(Event {
        condition: (middle - start) as u16,
        body: (lines.len() - middle) as u16,
    })
}

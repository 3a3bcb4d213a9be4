//! The first line of a flow: its number, the name of its case, and the word for its agent.
ghost use Rattle.std.specs.Prelude.{◌≡◌, ◌++◌, OnOk};
ghost use Rattle.flow_core.specs.LiveText.{flow_line};
ghost use Rattle.live_lines.specs.FlowLabels.{labelled_line};

use crate::labels::Label;
use agent_core::Agent;
use ccp_base::{Bytes, Name, NoMemory};
use report_lines::put_flow_head;

/// Appends the first line of a flow: its number, the name of its case, and its agent's kind.
pub fn put_flow_line(
    text: &mut Bytes,
    flow: u32,
    name: &Name,
    agent: &Agent,
) -> Result<(), NoMemory>
    ensures { OnOk result (text.new ≡ text.old ++ flow_line flow name.now agent.now) }
{
    put_labelled_line(text, flow, name, agent)
}

/// Appends the first line of a flow: its number, the name of its case, and the word that stands for its agent.
pub fn put_labelled_line<L: Label>(
    text: &mut Bytes,
    flow: u32,
    name: &Name,
    label: &L,
) -> Result<(), NoMemory>
    ensures { OnOk result (text.new ≡ text.old ++ labelled_line flow name.now (L.word label.now)) }
{
    put_flow_head(text, flow, name.as_slice())?;
    text.extend(b" agent=")?;
    text.extend(label.label().as_bytes())?;
    text.push(b'\n')?;
    Ok(())
}

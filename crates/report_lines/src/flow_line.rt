//! The beginning of a flow's first line: its number and the name of its case.
ghost use Rattle.std.specs.Prelude.{◌≡◌, ◌++◌, OnOk};
ghost use Rattle.report_lines.specs.FlowLine.{flow_head};

use crate::number::put_labelled;
use ccp_base::{Bytes, NoMemory};

/// Appends the beginning of a flow's first line: its number and the name of its case.
pub fn put_flow_head(text: &mut Bytes, flow: u32, name: &[u8]) -> Result<(), NoMemory>
    ensures { OnOk result (text.new ≡ text.old ++ flow_head flow name.now) }
{
    put_labelled(text, b"flow ", u64::from(flow))?;
    text.extend(b" case=")?;
    text.extend(name)?;
    Ok(())
}

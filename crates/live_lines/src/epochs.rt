//! The lines of epochs: of each its program, its first acknowledgement and its first window.
ghost use Rattle.std.specs.Prelude.{◌≡◌, ◌++◌, OnOk};
ghost use Rattle.flow_core.specs.LiveText.{epoch_lines, epoch_text};

use ccp_base::{Bytes, NoMemory};
use flow_core::EpochLine;
use report_lines::put_labelled;

/// Appends the lines of epochs, numbered from 0.
pub fn put_epoch_lines(text: &mut Bytes, epochs: &[EpochLine]) -> Result<(), NoMemory>
    ensures { OnOk result (text.new ≡ text.old ++ epoch_lines 0 epochs.now) }
{
    for (number, epoch) in epochs.iter().enumerate() {
        put_epoch_line(text, number, epoch)?;
    }
    Ok(())
}

/// Appends the line of the epoch with this number.
fn put_epoch_line(text: &mut Bytes, number: usize, epoch: &EpochLine) -> Result<(), NoMemory>
    ensures { OnOk result (text.new ≡ text.old ++ epoch_text number epoch.now) }
{
    put_labelled(text, b"epoch ", number as u64)?;
    put_labelled(text, b" program=", u64::from(epoch.program))?;
    put_labelled(text, b" at=", u64::from(epoch.at))?;
    put_labelled(text, b" cwnd=", epoch.cwnd)?;
    text.push(b'\n')?;
    Ok(())
}

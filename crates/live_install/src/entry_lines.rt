//! The lines of a flow's entries and changes.

ghost use Rattle.std.specs.Prelude.{◌≡◌, ◌++◌, OnOk, Err, map};
ghost use Rattle.open_flow.specs.Entries.{installed_of};
ghost use Rattle.live_install.specs.RolloutText.{change_line, change_lines, entry_line, entry_lines, installed_line};
ghost use Rattle.live_install.specs.RolloutText.{refused_head};

use ccp_base::{Bytes, NoMemory};
use flow_core::EpochLine;
use open_flow::Entry;
use portus_build::{BuildFault, put_refusal};
use std::alloc::Global;

/// Appends the lines of entries to a text, each with the number of acknowledgements at which it was installed.
pub(crate) fn put_entries(
    alloc: Global,
    text: &mut Bytes,
    installed: &[u32],
    entries: &[Entry],
) -> Result<(), NoMemory>
    ensures { OnOk result (text.new ≡ text.old ++ entry_lines 0 installed.now (map installed_of entries.now)) }
{
    let mut step = 0u64;
    let mut left = entries;
    let mut left_at = installed;
    while let Some((at, later)) = left_at.split_first() {
        let Some((entry, rest)) = left.split_first() else {
            return Ok(());
        };
        put_entry(alloc, text, step, *at, entry)?;
        step += 1;
        left = rest;
        left_at = later;
    }
    Ok(())
}

fn put_entry(
    alloc: Global,
    text: &mut Bytes,
    step: u64,
    at: u32,
    entry: &Entry,
) -> Result<(), NoMemory>
    ensures { OnOk result (text.new ≡ text.old ++ entry_line step at (installed_of entry.now)) }
{
    match entry.answer() {
        Ok(_) => put_installed(alloc, text, step, at),
        Err(refusal) => put_refused(alloc, text, step, at, *refusal),
    }
}

fn put_installed(alloc: Global, text: &mut Bytes, step: u64, at: u32) -> Result<(), NoMemory>
    ensures { OnOk result (text.new ≡ text.old ++ installed_line step at) }
{
    let line = format!(in alloc; "step {step} installed at={at}\n")?;
    text.extend(line.as_bytes())?;
    Ok(())
}

fn put_refused(
    alloc: Global,
    text: &mut Bytes,
    step: u64,
    at: u32,
    refusal: BuildFault,
) -> Result<(), NoMemory>
    ensures { OnOk result (text.new ≡ text.old ++ entry_line step at (Err refusal)) }
{
    put_refused_head(alloc, text, step, at)?;
    put_refusal(alloc, text, refusal)?;
    text.push(b'\n')?;
    Ok(())
}

fn put_refused_head(alloc: Global, text: &mut Bytes, step: u64, at: u32) -> Result<(), NoMemory>
    ensures { OnOk result (text.new ≡ text.old ++ refused_head step at) }
{
    let head = format!(in alloc; "step {step} refused at={at} ")?;
    text.extend(head.as_bytes())?;
    Ok(())
}

/// Appends the lines of changes to a text.
pub(crate) fn put_changes(
    alloc: Global,
    text: &mut Bytes,
    epochs: &[EpochLine],
) -> Result<(), NoMemory>
    ensures { OnOk result (text.new ≡ text.old ++ change_lines 0 epochs.now) }
{
    for (number, epoch) in epochs.iter().enumerate() {
        put_change(alloc, text, number, epoch)?;
    }
    Ok(())
}

fn put_change(
    alloc: Global,
    text: &mut Bytes,
    number: usize,
    epoch: &EpochLine,
) -> Result<(), NoMemory>
    ensures { OnOk result (text.new ≡ text.old ++ change_line number epoch.now) }
{
    let line = format!(in alloc;
        "epoch {number} step={} at={} cwnd={}\n",
        epoch.program, epoch.at, epoch.cwnd
    )?;
    text.extend(line.as_bytes())?;
    Ok(())
}

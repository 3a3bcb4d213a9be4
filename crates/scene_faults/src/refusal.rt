//! The texts of scenarios' refusals: a word with the path, or a name with the refusal of its text.
ghost use Rattle.std.specs.Prelude.{◌≡◌, ◌++◌, OnOk, decimal};
ghost use Rattle.scene_faults.specs.RefusalText.{trace_text, refusal_text};

use crate::fault::SceneFault;
use ccp_base::{Bytes, Name, NoMemory};
use link_model::TraceFault;
use portus_build::{BuildFault, put_refusal};
use std::alloc::Global;

/// Appends the refusal's text: a word, and the path, or the name with the refusal of its text.
pub fn put_scene_refusal(
    alloc: Global,
    text: &mut Bytes,
    fault: &SceneFault,
) -> Result<(), NoMemory>
    ensures { OnOk result (text.new ≡ text.old ++ refusal_text fault.now) }
{
    match fault {
        SceneFault::Json => Ok(text.extend(b"json")?),
        SceneFault::Missing(path) => put_path(text, b"missing ", path.as_slice()),
        SceneFault::Wrong(path) => put_path(text, b"wrong ", path.as_slice()),
        SceneFault::Range(path) => put_path(text, b"range ", path.as_slice()),
        SceneFault::Program(name, fault) => put_program(alloc, text, *name, *fault),
        SceneFault::Trace(name, fault) => put_trace(alloc, text, *name, *fault),
        SceneFault::Totals => Ok(text.extend(b"totals")?),
        SceneFault::NoMemory(_) => Ok(text.extend(b"NoMemory")?),
    }
}

fn put_path(text: &mut Bytes, word: &[u8], path: &[u8]) -> Result<(), NoMemory>
    ensures { OnOk result (text.new ≡ text.old ++ (word.now ++ path.now)) }
{
    text.extend(word)?;
    text.extend(path)?;
    Ok(())
}

fn put_program(
    alloc: Global,
    text: &mut Bytes,
    name: Name,
    fault: BuildFault,
) -> Result<(), NoMemory>
    ensures { OnOk result (text.new ≡ text.old ++ refusal_text (SceneFault.Program name fault)) }
{
    text.extend(b"program ")?;
    text.extend(name.as_slice())?;
    text.push(b' ')?;
    put_refusal(alloc, text, fault)
}

fn put_trace(alloc: Global, text: &mut Bytes, name: Name, fault: TraceFault) -> Result<(), NoMemory>
    ensures { OnOk result (text.new ≡ text.old ++ refusal_text (SceneFault.Trace name fault)) }
{
    text.extend(b"trace ")?;
    text.extend(name.as_slice())?;
    text.push(b' ')?;
    put_trace_fault(alloc, text, fault)
}

fn put_trace_fault(alloc: Global, text: &mut Bytes, fault: TraceFault) -> Result<(), NoMemory>
    ensures { OnOk result (text.new ≡ text.old ++ trace_text fault) }
{
    match fault {
        TraceFault::BadLine(line) => put_line(alloc, text, b"BadLine ", line),
        TraceFault::EmptyTrace => Ok(text.extend(b"EmptyTrace")?),
        TraceFault::NotRising(line) => put_line(alloc, text, b"NotRising ", line),
        TraceFault::ZeroPeriod => Ok(text.extend(b"ZeroPeriod")?),
        TraceFault::NoMemory(_) => Ok(text.extend(b"NoMemory")?),
    }
}

fn put_line(alloc: Global, text: &mut Bytes, word: &[u8], line: u64) -> Result<(), NoMemory>
    ensures { OnOk result (text.new ≡ text.old ++ (word.now ++ decimal line)) }
{
    let part = format!(in alloc; "{line}")?;
    text.extend(word)?;
    text.extend(part.as_bytes())?;
    Ok(())
}

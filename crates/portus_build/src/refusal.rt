//! The texts of refusals: the name of each, with its place or its number.
ghost use Rattle.std.specs.Prelude.{◌≡◌, ◌++◌, Some, OnOk};
ghost use Rattle.portus_build.specs.RefusalText.{parse_name, parse_place, too_many_name, scope_name, scope_place};
ghost use Rattle.portus_build.specs.RefusalText.{place_text, compile_text, refusal_text};

use crate::fault::BuildFault;
use ccp_base::{Bytes, NoMemory, Place};
use portus_parser::ParseFault;
use reg_compiler::CompileFault;
use scope_types::{ScopeFault, What};
use std::alloc::Global;

/// Appends the refusal's text: its name, and its place or its number if it has one.
pub fn put_refusal(alloc: Global, text: &mut Bytes, fault: BuildFault) -> Result<(), NoMemory>
    ensures { OnOk result (text.new ≡ text.old ++ refusal_text fault) }
{
    match fault {
        BuildFault::Parse(fault) => {
            text.extend(parse_name(fault).as_bytes())?;
            put_place(alloc, text, parse_place(fault))
        }
        BuildFault::Scope(fault) => {
            text.extend(scope_name(fault).as_bytes())?;
            put_place(alloc, text, scope_place(fault))
        }
        BuildFault::Compile(fault) => put_compile_fault(alloc, text, fault),
        BuildFault::NoMemory(_) => Ok(text.extend(b"NoMemory")?),
    }
}

fn put_compile_fault(alloc: Global, text: &mut Bytes, fault: CompileFault) -> Result<(), NoMemory>
    ensures { OnOk result (text.new ≡ text.old ++ compile_text fault) }
{
    match fault {
        CompileFault::TooDeep(place) => put_too_deep(alloc, text, place),
        CompileFault::CodeTooLong(count) => put_count(alloc, text, count),
        CompileFault::NoMemory(_) => Ok(text.extend(b"NoMemory")?),
    }
}

fn put_too_deep(alloc: Global, text: &mut Bytes, place: Place) -> Result<(), NoMemory>
    ensures { OnOk result (text.new ≡ text.old ++ compile_text (CompileFault.TooDeep place)) }
{
    let part = format!(in alloc; "TooDeep at {}:{}", place.line, place.column)?;
    text.extend(part.as_bytes())?;
    Ok(())
}

fn put_count(alloc: Global, text: &mut Bytes, count: u64) -> Result<(), NoMemory>
    ensures { OnOk result (text.new ≡ text.old ++ compile_text (CompileFault.CodeTooLong count)) }
{
    let part = format!(in alloc; "CodeTooLong {count}")?;
    text.extend(part.as_bytes())?;
    Ok(())
}

fn put_place(alloc: Global, text: &mut Bytes, place: Option<Place>) -> Result<(), NoMemory>
    ensures { OnOk result (text.new ≡ text.old ++ place_text place) }
{
    match place {
        None => Ok(()),
        Some(place) => put_some_place(alloc, text, place),
    }
}

fn put_some_place(alloc: Global, text: &mut Bytes, place: Place) -> Result<(), NoMemory>
    ensures { OnOk result (text.new ≡ text.old ++ place_text (Some place)) }
{
    let part = format!(in alloc; " at {}:{}", place.line, place.column)?;
    text.extend(part.as_bytes())?;
    Ok(())
}

fn parse_name(fault: ParseFault) -> &'static str
    ensures { result.now ≡ parse_name fault }
{
    match fault {
        ParseFault::SourceTooLong => "SourceTooLong",
        ParseFault::NotText(_) => "NotText",
        ParseFault::Unexpected(_) => "Unexpected",
        ParseFault::BadNumeral(_) => "BadNumeral",
        ParseFault::BadName(_) => "BadName",
        ParseFault::Nesting(_) => "Nesting",
        ParseFault::Unclosed(_) => "Unclosed",
        ParseFault::NoMemory(_) => "NoMemory",
    }
}

fn parse_place(fault: ParseFault) -> Option<Place>
    ensures { result ≡ parse_place fault }
{
    match fault {
        ParseFault::SourceTooLong | ParseFault::NoMemory(_) => None,
        ParseFault::NotText(place) => Some(place),
        ParseFault::Unexpected(place) => Some(place),
        ParseFault::BadNumeral(place) => Some(place),
        ParseFault::BadName(place) => Some(place),
        ParseFault::Nesting(place) => Some(place),
        ParseFault::Unclosed(place) => Some(place),
    }
}

fn scope_name(fault: ScopeFault) -> &'static str
    ensures { result.now ≡ scope_name fault }
{
    match fault {
        ScopeFault::Unknown(_) => "Unknown",
        ScopeFault::Twice(_) => "Twice",
        ScopeFault::NotWritable(_) => "NotWritable",
        ScopeFault::Kind(_) => "Kind",
        ScopeFault::Misplaced(_) => "Misplaced",
        ScopeFault::Micros(_) => "Micros",
        ScopeFault::TooMany(_, what) => too_many_name(what),
        ScopeFault::NoMemory(_) => "NoMemory",
    }
}

fn too_many_name(what: What) -> &'static str
    ensures { result.now ≡ too_many_name what }
{
    match what {
        What::Fields => "TooMany fields",
        What::Controls => "TooMany controls",
        What::Locals => "TooMany locals",
        What::Blocks => "TooMany blocks",
    }
}

fn scope_place(fault: ScopeFault) -> Option<Place>
    ensures { result ≡ scope_place fault }
{
    match fault {
        ScopeFault::Unknown(place) => Some(place),
        ScopeFault::Twice(place) => Some(place),
        ScopeFault::NotWritable(place) => Some(place),
        ScopeFault::Kind(place) => Some(place),
        ScopeFault::Misplaced(place) => Some(place),
        ScopeFault::Micros(place) => Some(place),
        ScopeFault::TooMany(place, _) => Some(place),
        ScopeFault::NoMemory(_) => None,
    }
}

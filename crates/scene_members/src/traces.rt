//! The traces of a scenario by name.
ghost use Rattle.std.specs.Prelude.{◌≡◌, ◌≢◌, IfOk, IfErr, Ok, Err, [], option_map};
ghost use Rattle.ccp_base.specs.Outside.{no_memory};
ghost use Rattle.serde_json.specs.View.{view, members_view};
ghost use Rattle.scene_members.specs.CaseWalk.{trace_named};
ghost use Rattle.scene_members.specs.Traces.{named_trace, traces_from, traces_in, table_of};
ghost use Rattle.scene_members.specs.Readers.{Gives};
ghost use Rattle.scene_members.specs.declared.fault.MemberFault.TheVariants as fault;

use crate::fault::MemberFault;
use crate::json_place::JsonPlace;
use crate::key::Key;
use crate::named::named_text;
use crate::values::{needed_member, object};
use link_model::{Trace, TraceFault};
use serde_json::{Map, Value};
use std::alloc::Global;
use std::collections::BTreeMap;

/// Traces by name.
pub type Traces = BTreeMap<String, Trace>;

fn named_trace(alloc: Global, name: &str, value: &Value) -> Result<Trace, MemberFault>
    ensures { Gives (λ times. times) result (named_trace name.now (view value.now)) }
{
    let named = named_text(alloc, Key::Traces, name, value)?;
    match Trace::read(alloc, named.text.as_bytes()) {
        Ok(trace) => Ok(trace),
        Err(TraceFault::NoMemory(error)) => Err(MemberFault::NoMemory(error)),
        Err(fault) => Err(MemberFault::Trace(named.name, fault)),
    }
}

fn traces_from(alloc: Global, members: &Map<String, Value>) -> Result<Traces, MemberFault>
    ensures { Gives (λ ts. table_of ts.entries) result (traces_from [] (members_view members.now.entries)) }
{
    let mut traces = Traces::new(alloc);
    for (name, value) in members.iter() {
        let trace = named_trace(alloc, name.as_str(), value)?;
        drop(traces.insert(String::from_str(alloc, name.as_str())?, trace)?);
    }
    Ok(traces)
}

/// The traces of a scenario.
pub fn traces_in(alloc: Global, whole: &Value) -> Result<Traces, MemberFault>
    ensures ok { IfOk result (λ traces. traces_in (view whole.now) ≡ Ok (table_of traces.entries)) }
    ensures err { IfErr result (λ e. e ≢ fault.NoMemory no_memory → traces_in (view whole.now) ≡ Err e) }
{
    let place = JsonPlace::Top(Key::Traces);
    let value = needed_member(alloc, place, whole, Key::Traces)?;
    let members = object(alloc, place, value)?;
    traces_from(alloc, members)
}

// A function of its own: its proof turns a look-up of the map into one of the table that its caller's clauses name.
/// The trace with this name.
pub(crate) fn trace_named<'a>(traces: &'a Traces, name: &str) -> Option<&'a Trace>
    ensures { option_map (λ t. t.now) result ≡ trace_named name.now (table_of traces.now.entries) }
{
    traces.get(name)
}

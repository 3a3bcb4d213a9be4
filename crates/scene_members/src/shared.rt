//! The member `shared`: the link that flows share, and the most rounds.
ghost use Rattle.std.specs.Prelude.{◌≡◌, ◌≢◌, ◌≤◌, IfOk, IfErr, Ok, Err};
ghost use Rattle.ccp_base.specs.Outside.{no_memory};
ghost use Rattle.serde_json.specs.View.{view};
ghost use Rattle.ccp_base.specs.Limits.{most_queue, most_quantum_us, most_rounds};
ghost use Rattle.scene_members.specs.Keys.{least_of, greatest_value};
ghost use Rattle.scene_members.specs.Traces.{table_of};
ghost use Rattle.scene_members.specs.SharedMembers.{shared_trace, shared_number, shared_members, shares_in};
ghost use Rattle.scene_members.specs.Readers.{Gives};
ghost use Rattle.scene_members.specs.declared.fault.MemberFault.TheVariants as fault;

use crate::case::trace_in;
use crate::fault::MemberFault;
use crate::json_place::JsonPlace;
use crate::key::Key;
use crate::traces::Traces;
use crate::values::{needed_member, needed_number, object};
use link_model::Trace;
use serde_json::Value;
use std::alloc::Global;

/// What the member `shared` says.
#[derive(Drop)]
pub struct Shares {
    pub trace: Trace,
    pub queue: u32,
    pub quantum_us: u64,
    pub rounds: u32,
}

fn shared_trace(alloc: Global, traces: &Traces, value: &Value) -> Result<Trace, MemberFault>
    ensures { Gives (λ t. t) result (shared_trace (table_of traces.now.entries) (view value.now)) }
{
    let place = JsonPlace::Shared(Key::Trace);
    let name = needed_member(alloc, place, value, Key::Trace)?;
    trace_in(alloc, place, traces, name)
}

fn shared_number(alloc: Global, key: Key, value: &Value) -> Result<u64, MemberFault>
    ensures walk { Gives (λ n. n) result (shared_number key (view value.now)) }
    ensures least { IfOk result (λ n. least_of key ≤ n) }
    ensures most { IfOk result (λ n. n ≤ greatest_value key) }
{
    needed_number(alloc, JsonPlace::Shared(key), value, key)
}

fn shared_members(alloc: Global, traces: &Traces, value: &Value) -> Result<Shares, MemberFault>
    ensures walk { Gives (λ s. s) result (shared_members (table_of traces.now.entries) (view value.now)) }
    ensures queue { IfOk result (λ s. (1 ≤ s.queue) × (s.queue ≤ most_queue)) }
    ensures quantum_us { IfOk result (λ s. (1 ≤ s.quantum_us) × (s.quantum_us ≤ most_quantum_us)) }
    ensures rounds { IfOk result (λ s. (1 ≤ s.rounds) × (s.rounds ≤ most_rounds)) }
{
    let trace = shared_trace(alloc, traces, value)?;
    let queue = shared_number(alloc, Key::Queue, value)?;
    let quantum_us = shared_number(alloc, Key::QuantumUs, value)?;
    let rounds = shared_number(alloc, Key::Rounds, value)?;
    Ok(Shares {
        trace,
        queue: queue as u32,
        quantum_us,
        rounds: rounds as u32,
    })
}

/// What a scenario says of its shared link.
pub fn shares_in(alloc: Global, traces: &Traces, whole: &Value) -> Result<Shares, MemberFault>
    ensures ok { IfOk result (λ s. shares_in (table_of traces.now.entries) (view whole.now) ≡ Ok s) }
    ensures queue { IfOk result (λ s. (1 ≤ s.queue) × (s.queue ≤ most_queue)) }
    ensures quantum_us { IfOk result (λ s. (1 ≤ s.quantum_us) × (s.quantum_us ≤ most_quantum_us)) }
    ensures rounds { IfOk result (λ s. (1 ≤ s.rounds) × (s.rounds ≤ most_rounds)) }
    ensures err { IfErr result (λ e. e ≢ fault.NoMemory no_memory
        → shares_in (table_of traces.now.entries) (view whole.now) ≡ Err e) }
{
    let place = JsonPlace::Top(Key::Shared);
    let value = needed_member(alloc, place, whole, Key::Shared)?;
    object(alloc, place, value)?;
    shared_members(alloc, traces, value)
}

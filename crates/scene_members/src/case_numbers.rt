//! How a case's numbers are read, with the defaults for slots, lag and start.
ghost use Rattle.std.specs.Prelude.{◌≤◌, IfOk};
ghost use Rattle.serde_json.specs.View.{view};
ghost use Rattle.scene_members.specs.Keys.{least_of, greatest_value};
ghost use Rattle.scene_members.specs.Plans.{AreLinkNumbers, AreAgentNumbers, IsStart};
ghost use Rattle.scene_members.specs.CaseWalk.{case_number, case_link_numbers, case_agent_numbers, case_start};
ghost use Rattle.scene_members.specs.Readers.{Gives};

use crate::fault::MemberFault;
use crate::json_place::JsonPlace;
use crate::key::Key;
use crate::mode::SceneMode;
use crate::plan::{AgentNumbers, LinkNumbers};
use crate::values::{needed_number, number_or};
use serde_json::Value;
use std::alloc::Global;

/// The slots of a case that says nothing of them.
const SLOTS: u64 = 4;

/// A number that every case gives.
pub(crate) fn case_number(
    alloc: Global,
    i: usize,
    key: Key,
    whole: &Value,
) -> Result<u64, MemberFault>
    ensures walk { Gives (λ n. n) result (case_number i key (view whole.now)) }
    ensures least { IfOk result (λ n. least_of key ≤ n) }
    ensures most { IfOk result (λ n. n ≤ greatest_value key) }
{
    needed_number(alloc, JsonPlace::In(i, key), whole, key)
}

/// The numbers that every case gives, each in its range.
pub(crate) fn link_numbers(
    alloc: Global,
    i: usize,
    whole: &Value,
) -> Result<LinkNumbers, MemberFault>
    ensures walk { Gives (λ m. m) result (case_link_numbers i (view whole.now)) }
    ensures within { IfOk result AreLinkNumbers }
{
    let mss = case_number(alloc, i, Key::Mss, whole)?;
    let queue = case_number(alloc, i, Key::Queue, whole)?;
    let delay_us = case_number(alloc, i, Key::DelayUs, whole)?;
    let timeout_us = case_number(alloc, i, Key::TimeoutUs, whole)?;
    let acks = case_number(alloc, i, Key::Acks, whole)?;
    Ok(LinkNumbers {
        mss: mss as u32,
        queue: queue as u32,
        delay_us,
        timeout_us,
        acks: acks as u32,
    })
}

/// How many reports may wait, and how late answers are.
pub(crate) fn agent_numbers(
    alloc: Global,
    i: usize,
    whole: &Value,
) -> Result<AgentNumbers, MemberFault>
    ensures walk { Gives (λ w. w) result (case_agent_numbers i (view whole.now)) }
    ensures within { IfOk result AreAgentNumbers }
{
    let slots = number_or(
        alloc,
        JsonPlace::In(i, Key::Slots),
        whole,
        Key::Slots,
        SLOTS,
    )?;
    let lag = number_or(alloc, JsonPlace::In(i, Key::Lag), whole, Key::Lag, 0)?;
    Ok(AgentNumbers {
        slots: slots as u32,
        lag: lag as u32,
    })
}

/// When the case's flow starts, in microseconds of the time of the link that it shares. Other modes ignore the member.
pub(crate) fn case_start(
    alloc: Global,
    mode: SceneMode,
    i: usize,
    whole: &Value,
) -> Result<u64, MemberFault>
    ensures walk { Gives (λ n. n) result (case_start mode i (view whole.now)) }
    ensures within { IfOk result (IsStart mode) }
{
    match mode {
        SceneMode::Shared => number_or(
            alloc,
            JsonPlace::In(i, Key::StartUs),
            whole,
            Key::StartUs,
            0,
        ),
        SceneMode::Live | SceneMode::Campaign | SceneMode::Driven => Ok(0),
    }
}

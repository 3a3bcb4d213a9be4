//! The text of acknowledgements: a line for each flow, then one for each of its acknowledgements.
ghost use Rattle.std.specs.Prelude.{◌≡◌, ◌≤◌, ◌++◌, IfOk, OnOk, length, map};
ghost use Rattle.ccp_base.specs.Limits.{most_cases};
ghost use Rattle.campaign_report.specs.AcksText.{ack_line, ack_lines, acks_text, flow_text, flows_text, own_flow_text};

use crate::ack_line::{LINE, write_line};
use crate::table::Agents;
use campaign_core::CaseAcks;
use ccp_base::{Ack, Acks, Bytes, Name, Names, NoMemory};
use live_lines::{Label, Own, put_labelled_line};
use std::alloc::Global;

/// The text of acknowledgements: for each case the line of its flow, numbered from 0, and then a line for each of its
/// acknowledgements, which is one of `fold`. The three lists have one length, of at most 1,024 cases.
pub fn acks_text(
    alloc: Global,
    names: &Names,
    agents: &Agents,
    acks: &CaseAcks,
) -> Result<Bytes, NoMemory>
    requires within { length acks.now ≤ most_cases }
    requires names { length names.now ≡ length acks.now }
    requires agents { length agents.now ≡ length acks.now }
    ensures { IfOk result (λ text. text ≡ acks_text names.now agents.now acks.now) }
{
    let mut text = Bytes::new(alloc);
    put_flows(
        &mut text,
        names.as_slice(),
        agents.as_slice(),
        acks.as_slice(),
    )?;
    Ok(text)
}

/// Appends the text of the acknowledgements of one flow that an agent outside drives, with `own` as its agent.
pub fn put_own_acks(text: &mut Bytes, flow: u32, name: &Name, acks: &[Ack]) -> Result<(), NoMemory>
    ensures { OnOk result (text.new ≡ text.old ++ own_flow_text flow name.now acks.now) }
{
    put_flow_text(text, flow, name, &Own, acks)
}

fn put_flows<L: Label>(
    text: &mut Bytes,
    names: &[Name],
    labels: &[L],
    acks: &[Acks],
) -> Result<(), NoMemory>
    requires { length acks.now ≤ most_cases }
    ensures { OnOk result (text.new ≡ text.old ++ flows_text 0 names.now (map L.word labels.now) acks.now) }
{
    let mut flow = 0;
    let mut left = acks;
    let mut left_names = names;
    let mut left_labels = labels;
    while let Some((acks, rest)) = left.split_first() {
        let Some((name, rest_names)) = left_names.split_first() else {
            return Ok(());
        };
        let Some((label, rest_labels)) = left_labels.split_first() else {
            return Ok(());
        };
        put_flow_text(text, flow, name, label, acks.as_slice())?;
        flow += 1;
        left = rest;
        left_names = rest_names;
        left_labels = rest_labels;
    }
    Ok(())
}

// A function of its own: the loop above has one call in each turn, so it needs only its invariant.
fn put_flow_text<L: Label>(
    text: &mut Bytes,
    flow: u32,
    name: &Name,
    label: &L,
    acks: &[Ack],
) -> Result<(), NoMemory>
    ensures { OnOk result (text.new ≡ text.old ++ flow_text flow name.now (L.word label.now) acks.now) }
{
    put_labelled_line(text, flow, name, label)?;
    put_acks(text, acks)
}

/// Appends the lines of acknowledgements.
fn put_acks(text: &mut Bytes, acks: &[Ack]) -> Result<(), NoMemory>
    ensures { OnOk result (text.new ≡ text.old ++ ack_lines acks.now) }
{
    let mut line = [0; LINE];
    let mut left = acks;
    while let Some((ack, rest)) = left.split_first() {
        put_ack(text, &mut line, ack)?;
        left = rest;
    }
    Ok(())
}

// The line is written in the buffer, whose bytes don't matter, and copied from there in one piece.
fn put_ack(text: &mut Bytes, line: &mut [u8; LINE], ack: &Ack) -> Result<(), NoMemory>
    ensures { OnOk result (text.new ≡ text.old ++ ack_line ack.entry.now) }
{
    let start = write_line(line, ack);
    text.extend(&line[start..])?;
    Ok(())
}

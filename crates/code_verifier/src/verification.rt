//! The verifier's call: it accepts a code, or gives the first rule that it fails and the instruction.
ghost use Rattle.std.specs.Prelude.{◌≡◌, ◌+◌, ◌<◌, ◌≤◌, ◌^◌, ◌↔◌, Some, None, IsOk, IfOk, IfErr, IfNone, length, take, drop};
ghost use Rattle.std.specs.Option.{option_or};
ghost use Rattle.ccp_base.specs.Limits.{most_blocks, most_instrs};
ghost use Rattle.reg_code.specs.CodeStep.{condition_of, event_body, instrs_after};
ghost use Rattle.reg_code.specs.AcceptedCode.{IsAccepted, refusal_where, no_marks, marks_after, part_refusal, instrs_refusal, events_refusal, counts_refusal, sizes_of, rejected};
ghost use Rattle.code_verifier.specs.PartRefusals.{parts_refusal};
ghost use Rattle.code_verifier.specs.Marked.{marks_of};

use crate::instruction::rule_failed;
use crate::tables::{Tables, mark, no_tables};
use reg_code::{CONTROLS, Checked, Code, EVENTS, Event, FIELDS, INSTRS, Packed, Part, Rule, Sizes};

/// A code that isn't accepted.
#[derive(Drop)]
pub struct Rejected {
    /// The code, as it was handed in.
    pub code: Code,
    /// The first rule that it fails.
    pub rule: Rule,
    /// What fails it, from 0: of `Counts` the reports, the controls, the events or the instructions; of `Events`
    /// the event, or the number of events if instructions are left over; of each other rule the instruction.
    pub index: u32,
}

/// The code as an accepted one, or the first rule that it fails.
pub fn verify(code: Code) -> Result<Checked, Rejected>
    ensures accepted { IsOk result ↔ IsAccepted code }
    ensures code { IfOk result (λ checked. checked.code ≡ code) }
    ensures rejected { IfErr result (λ refusal. rejected code ≡ Some (refusal.rule, refusal.index)) }
    ensures handed_back { IfErr result (λ refusal. refusal.code ≡ code) }
{
    match refusal(&code) {
        None => Ok(Checked::new(code)),
        Some((rule, index)) => Err(Rejected { code, rule, index }),
    }
}

fn refusal(code: &Code) -> Option<(Rule, u32)>
    ensures { result ≡ rejected code.now }
{
    let events = code.events();
    if let Some(refusal) = counts_refusal(code) {
        return Some(refusal);
    }
    if let Some(refusal) = events_refusal(events, code.instrs().len()) {
        return Some(refusal);
    }
    instrs_refusal(sizes_of(code), events, code.instrs())
}

fn counts_refusal(code: &Code) -> Option<(Rule, u32)>
    ensures refusal { result ≡ counts_refusal code.now }
    ensures events { IfNone result (length code.now.events ≤ most_blocks) }
    ensures instrs { IfNone result (length code.now.instrs ≤ most_instrs) }
{
    refusal_where(code.reports().len() > FIELDS as usize, Rule::Counts, 0)
        .or(refusal_where(code.controls().len() > CONTROLS, Rule::Counts, 1))
        .or(refusal_where(code.events().len() > EVENTS, Rule::Counts, 2))
        .or(refusal_where(code.instrs().len() > INSTRS, Rule::Counts, 3))
}

fn refusal_where(fails: bool, rule: Rule, index: u32) -> Option<(Rule, u32)>
    ensures { result ≡ refusal_where fails rule index }
{
    if fails { Some((rule, index)) } else { None }
}

fn sizes_of(code: &Code) -> Sizes
    ensures { result ≡ sizes_of code.now }
{
    Sizes {
        reports: code.reports().len(),
        controls: code.controls().len(),
    }
}

/// The first event without a condition or with more instructions than are left, or else that some are left.
fn events_refusal(events: &[Event], instrs: usize) -> Option<(Rule, u32)>
    requires { length events.now ≤ most_blocks }
    ensures { result ≡ events_refusal events.now 0 instrs }
{
    let mut left = instrs;
    for (number, event) in events.iter().enumerate() {
        let size = usize::from(event.condition) + usize::from(event.body);
        if event.condition == 0 || left < size {
            return Some((Rule::Events, number as u32));
        }
        left -= size;
    }
    refusal_where(left > 0, Rule::Events, events.len() as u32)
}

/// The first refusal among the instructions, which are those of the events.
fn instrs_refusal(sizes: Sizes, events: &[Event], instrs: &[Packed]) -> Option<(Rule, u32)>
    requires events { length events.now ≤ most_blocks }
    requires instrs { length instrs.now ≤ most_instrs }
    ensures { result ≡ instrs_refusal sizes events.now 0 instrs.now }
{
    let mut left = instrs;
    let mut index = 0;
    for event in events {
        let (condition, after) = split_front(left, event.condition);
        let (body, rest) = split_front(after, event.body);
        let body_index = index + u32::from(event.condition);
        if let Some(refusal) = event_refusal(sizes, index, body_index, condition, body) {
            return Some(refusal);
        }
        index = body_index + u32::from(event.body);
        left = rest;
    }
    None
}

/// The first instructions, at most this many, and the others.
fn split_front(instrs: &[Packed], count: u16) -> (&[Packed], &[Packed])
    ensures front { result.0.now ≡ take count instrs.now }
    ensures rest { result.1.now ≡ drop count instrs.now }
{
    instrs.split_at(instrs.len().min(usize::from(count)))
}

/// The first refusal among the instructions of an event's condition and body, whose first ones have these indices.
fn event_refusal(
    sizes: Sizes,
    index: u32,
    body_index: u32,
    condition: &[Packed],
    body: &[Packed],
) -> Option<(Rule, u32)>
    requires condition { index + length condition.now < 2 ^ 32 }
    requires body { body_index + length body.now < 2 ^ 32 }
    ensures { result ≡ parts_refusal sizes index body_index condition.now body.now }
{
    let mut tables = no_tables();
    if let Some(refusal) = part_refusal(sizes, Part::Condition, index, &mut tables, condition) {
        return Some(refusal);
    }
    part_refusal(sizes, Part::Body, body_index, &mut tables, body)
}

/// The first refusal among the instructions of a part, the first of which has this index.
fn part_refusal(
    sizes: Sizes,
    part: Part,
    first: u32,
    tables: &mut Tables,
    instrs: &[Packed],
) -> Option<(Rule, u32)>
    requires { first + length instrs.now < 2 ^ 32 }
    ensures refusal { result ≡ part_refusal sizes part first (marks_of tables.old) instrs.now }
    ensures marks { IfNone result (marks_of tables.new ≡ marks_after instrs.now (marks_of tables.old)) }
{
    let mut index = first;
    let mut left = instrs;
    while let Some((instr, rest)) = left.split_first() {
        let instr = instr.instr();
        if let Some(rule) = rule_failed(sizes, part, rest.is_empty(), tables, &instr) {
            return Some((rule, index));
        }
        mark(tables, sizes, &instr);
        index += 1;
        left = rest;
    }
    None
}

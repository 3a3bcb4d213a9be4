//! Code that the verifier refuses, each with the first rule that it fails.
use crate::packing::pack_all;
use ccp_base::NoMemory;
use code_verifier::verify;
use reg_code::{Code, Event, Implicit, Instr, Op, Op2, Reg, Rule, Sequence, Start};
use std::alloc::{AllocError, Global};
use std::test::Fail;

const FLAG: Reg = Reg::Implicit(Implicit::Flag);

const FALL: Reg = Reg::Implicit(Implicit::Fall);

const MICROS: Reg = Reg::Implicit(Implicit::Micros);

const CWND: Reg = Reg::Implicit(Implicit::Cwnd);

const ZERO: Reg = Reg::Imm(0);

const ONE: Reg = Reg::Imm(1);

const TEMP: Reg = Reg::Temp(3);

/// A condition that holds.
const HOLDS: Instr = Instr {
    op: Op::Bind,
    to: FLAG,
    left: ONE,
    right: ZERO,
};

/// An event of a condition alone.
const BARE: Event = Event {
    condition: 1,
    body: 0,
};

/// The rule and the index with which a code is refused, if it is.
type Refusal = Option<(Rule, u32)>;

fn starts(alloc: Global, count: usize) -> Result<Sequence<Start>, AllocError> {
    let start = Start {
        volatile: false,
        value: 0,
    };
    Ok(Sequence::from_vec(vec![in alloc; start; count]?))
}

/// A code with these numbers of reports and controls.
fn code(
    alloc: Global,
    reports: usize,
    controls: usize,
    events: &[Event],
    instrs: &[Instr],
) -> Result<Code, NoMemory> {
    let reports = starts(alloc, reports)?;
    let controls = starts(alloc, controls)?;
    let events = Sequence::from_vec(Vec::from_slice(alloc, events)?);
    let instrs = pack_all(alloc, instrs)?;
    Code::new(alloc, reports, controls, events, instrs)
}

fn refusal(code: Code) -> Refusal {
    match verify(code) {
        Ok(_) => None,
        Err(refusal) => Some((refusal.rule, refusal.index)),
    }
}

/// How many reports and controls, how many events, each of this kind, and how many conditions that hold.
type Counts = (usize, usize, usize, Event, usize, Refusal);

/// An event with one condition and all else as its body.
const WHOLE: Event = Event {
    condition: 1,
    body: 255,
};

const COUNTS: [Counts; 6] = [
    (64, 64, 64, BARE, 64, None),
    (65, 65, 65, BARE, 257, Some((Rule::Counts, 0))),
    (64, 65, 65, BARE, 257, Some((Rule::Counts, 1))),
    (64, 64, 65, BARE, 257, Some((Rule::Counts, 2))),
    (64, 64, 1, WHOLE, 257, Some((Rule::Counts, 3))),
    (64, 64, 1, WHOLE, 256, Some((Rule::Writable, 1))),
];

fn refusal_of_counts(alloc: Global, counts: &Counts) -> Result<Refusal, NoMemory> {
    let (reports, controls, size, event, holding, _) = *counts;
    let events = vec![in alloc; event; size]?;
    let instrs = vec![in alloc; HOLDS; holding]?;
    Ok(refusal(code(alloc, reports, controls, &events, &instrs)?))
}

#[test]
fn refuses_too_many(rt: HostRuntime) -> Result<(), Fail> {
    for (place, counts) in COUNTS.iter().enumerate() {
        assert!(rt;
            refusal_of_counts(rt.alloc(), counts)? == counts.5,
            "at {place}"
        );
    }
    Ok(())
}

/// An operation, the register that it writes and those that it reads.
type Line = (Op, Reg, Reg, Reg);

fn instr(line: Line) -> Instr {
    let (op, to, left, right) = line;
    Instr {
        op,
        to,
        left,
        right,
    }
}

/// The refusal of an event with a condition of two instructions and a body of one.
fn refusal_of_event(
    alloc: Global,
    first: Line,
    second: Line,
    body: Line,
) -> Result<Refusal, NoMemory> {
    let event = Event {
        condition: 2,
        body: 1,
    };
    let instrs = [instr(first), instr(second), instr(body)];
    Ok(refusal(code(alloc, 1, 1, &[event], &instrs)?))
}

/// Bodies, and the first rules that they fail.
const BODIES: [(Line, Option<Rule>); 14] = [
    ((Op::Bind, Reg::Report(1), FLAG, ZERO), Some(Rule::Range)),
    ((Op::Bind, CWND, FALL, ZERO), Some(Rule::Readable)),
    ((Op::Bind, CWND, Reg::Local(1), ZERO), Some(Rule::Local)),
    ((Op::Ewma, Reg::Local(1), CWND, ONE), Some(Rule::Local)),
    ((Op::Ewma, CWND, Reg::Imm(11), ONE), Some(Rule::Weight)),
    ((Op::Bind, ONE, ONE, ONE), Some(Rule::BindRight)),
    ((Op::Bind, ONE, ONE, ZERO), Some(Rule::Writable)),
    ((Op::Bind, Reg::Prim(14), ONE, ZERO), Some(Rule::Writable)),
    ((Op::Bind, MICROS, ONE, ZERO), Some(Rule::Writable)),
    (
        (Op::Pair(Op2::Add), MICROS, ZERO, ZERO),
        Some(Rule::Writable),
    ),
    ((Op::Bind, FLAG, ONE, ZERO), Some(Rule::Writable)),
    ((Op::Ewma, FALL, ONE, ONE), Some(Rule::Writable)),
    ((Op::Bind, CWND, ONE, ZERO), None),
    ((Op::Bind, MICROS, ZERO, ZERO), None),
];

#[test]
fn refuses_the_first_rule_that_a_body_fails(rt: HostRuntime) -> Result<(), Fail> {
    let first = (Op::Bind, TEMP, ONE, ZERO);
    let second = (Op::Bind, FLAG, TEMP, ZERO);
    for (place, row) in BODIES.iter().enumerate() {
        let refusal = refusal_of_event(rt.alloc(), first, second, row.0)?;
        assert!(rt; refusal == row.1.map(|rule| (rule, 2)), "at {place}");
    }
    Ok(())
}

/// Conditions of two instructions, and the rules and the indices with which they are refused.
const CONDITIONS: [(Line, Line, Refusal); 6] = [
    (
        (Op::Bind, Reg::Temp(8), ONE, ZERO),
        (Op::Bind, FLAG, ONE, ZERO),
        Some((Rule::Range, 0)),
    ),
    (
        (Op::Bind, TEMP, TEMP, ZERO),
        (Op::Bind, FLAG, ONE, ZERO),
        Some((Rule::Temporary, 0)),
    ),
    (
        (Op::If, TEMP, ONE, ONE),
        (Op::Bind, FLAG, TEMP, ZERO),
        Some((Rule::Temporary, 1)),
    ),
    (
        (Op::Bind, CWND, ONE, ZERO),
        (Op::Bind, FLAG, ONE, ZERO),
        Some((Rule::Writable, 0)),
    ),
    (
        (Op::Bind, FLAG, ONE, ZERO),
        (Op::Bind, TEMP, ONE, ZERO),
        Some((Rule::Writable, 1)),
    ),
    (
        (Op::Bind, FLAG, ONE, ZERO),
        (Op::NotIf, FLAG, ONE, ONE),
        Some((Rule::Writable, 1)),
    ),
];

#[test]
fn refuses_the_first_rule_that_a_condition_fails(rt: HostRuntime) -> Result<(), Fail> {
    let body = (Op::Bind, CWND, ONE, ZERO);
    for (place, row) in CONDITIONS.iter().enumerate() {
        let refusal = refusal_of_event(rt.alloc(), row.0, row.1, body)?;
        assert!(rt; refusal == row.2, "at {place}");
    }
    Ok(())
}

#[test]
fn hands_a_code_back(rt: HostRuntime) -> Result<(), Fail> {
    let refusal = verify(code(rt.alloc(), 3, 0, &[], &[HOLDS])?).err();
    assert!(rt; refusal.ok_or("accepted")?.code.reports().len() == 3);
    Ok(())
}

//! What the blocks of a program make of cases.
ghost use Rattle.std.specs.Prelude.{◌≡◌, IsTrue, OnOk, map};
ghost use Rattle.ccp_base.specs.declared.ack.Ack.{Ack};
ghost use Rattle.portus_core.specs.Programs.{term_of, action_of, part_of};
ghost use Rattle.portus_core.specs.Command.{Going, value_in, command_of, run_commands};
ghost use Rattle.portus_core.specs.Blocks.{at_block, blocks_of};
ghost use Rattle.portus_core.specs.Runnable.{is_runnable, is_runnable_body, are_runnable};
ghost use Rattle.range_cases.specs.Listing.{KeepsListed};
ghost use Rattle.range_cases.specs.Cases.{IsCase, IsAmong, KeepsCases, LeadsTo, Enters, Parts};

use crate::case::Case;
use crate::cases::{put, put_all};
use crate::commands::{command, put_some};
use crate::condition::refined;
use crate::listed::Listed;
use crate::term::evaluated;
use ccp_base::{NoMemory, Sequence};
use portus_core::{Block, Cmd, Expr};
use std::alloc::Global;
use value_ranges::Range;

/// How many cases go from one block to the next, before those that have asked for the same are joined.
const MOST_CASES: usize = 32;

/// The cases that the blocks can lead to from any of the cases, put into a list of ends; the faults that they can have
/// are listed.
#[tactic(auto, using(crate::proofs::BlockLemmas::leads_block))]
pub fn blocks(
    alloc: Global,
    parts: &[Block],
    cases: &[Case],
    turn: u32,
    faults: &mut Sequence<Listed>,
    ends: &mut Vec<Case>,
) -> Result<(), NoMemory>
    requires { IsTrue (are_runnable (map part_of parts.now)) }
    ensures leads { OnOk result ((ack : Ack) (going : Going) → IsAmong cases.now ack going
        → LeadsTo faults.new turn ends.new.items ack (blocks_of (map part_of parts.now) ack going)) }
    ensures keeps { OnOk result (KeepsCases ends.old.items ends.new.items) }
    ensures listed { KeepsListed faults.old faults.new }
{
    match parts.split_first() {
        None => put_all(ends, cases, MOST_CASES),
        Some((part, rest)) => {
            let mut held = Vec::new(alloc);
            let mut next = Vec::new(alloc);
            enter(&part.condition, cases, turn, faults, &mut held, &mut next)?;
            let mut ran = Vec::new(alloc);
            body(alloc, &part.body, held.as_slice(), turn, faults, &mut ran)?;
            leave(ran.as_slice(), &mut next, ends)?;
            blocks(alloc, rest, next.as_slice(), turn, faults, ends)?;
            Ok(())
        }
    }
}

/// Puts the cases in which a block's condition is true and those in which it is false into a list each, all at the
/// block's begin.
#[tactic(auto, using(crate::proofs::BlockLemmas::enters_keeps))]
fn enter(
    condition: &Expr,
    cases: &[Case],
    turn: u32,
    faults: &mut Sequence<Listed>,
    held: &mut Vec<Case>,
    next: &mut Vec<Case>,
) -> Result<(), NoMemory>
    ensures enters { OnOk result ((ack : Ack) (going : Going) → IsAmong cases.now ack going
        → Enters faults.new turn held.new.items next.new.items ack (at_block going)
        (value_in (term_of condition.now) ack (at_block going))) }
    ensures listed { KeepsListed faults.old faults.new }
{
    let mut left = cases;
    while let Some((case, rest)) = left.split_first() {
        enter_case(condition, case, turn, faults, held, next)?;
        left = rest;
    }
    Ok(())
}

/// Puts the parts of a case, at the begin of a block, in which its condition is true and false into a list each.
#[tactic(auto, using(crate::proofs::BlockLemmas::condition_parts))]
fn enter_case(
    condition: &Expr,
    case: &Case,
    turn: u32,
    faults: &mut Sequence<Listed>,
    held: &mut Vec<Case>,
    next: &mut Vec<Case>,
) -> Result<(), NoMemory>
    ensures enters { OnOk result ((ack : Ack) (going : Going) → IsCase case.now ack going
        → Enters faults.new turn held.new.items next.new.items ack (at_block going)
        (value_in (term_of condition.now) ack (at_block going))) }
    ensures held { OnOk result (KeepsCases held.old.items held.new.items) }
    ensures next { OnOk result (KeepsCases next.old.items next.new.items) }
    ensures listed { KeepsListed faults.old faults.new }
{
    let begun = case.at_block();
    evaluated(condition, &begun, turn, faults)?;
    put_some(held, refined(condition, true, &begun))?;
    put_some(next, refined(condition, false, &begun))?;
    Ok(())
}

/// The cases that the commands can lead to from any of the cases, put into a list.
#[tactic(auto, using(crate::proofs::BlockLemmas::leads_then))]
fn body(
    alloc: Global,
    cmds: &[Cmd],
    cases: &[Case],
    turn: u32,
    faults: &mut Sequence<Listed>,
    ends: &mut Vec<Case>,
) -> Result<(), NoMemory>
    requires { IsTrue (is_runnable_body (map action_of cmds.now)) }
    ensures leads { OnOk result ((ack : Ack) (going : Going) → IsAmong cases.now ack going
        → LeadsTo faults.new turn ends.new.items ack (run_commands (map action_of cmds.now) ack going)) }
    ensures listed { KeepsListed faults.old faults.new }
{
    match cmds.split_first() {
        None => put_all(ends, cases, MOST_CASES),
        Some((cmd, rest)) => {
            let mut made = Vec::new(alloc);
            each(cmd, cases, turn, faults, &mut made)?;
            body(alloc, rest, made.as_slice(), turn, faults, ends)
        }
    }
}

/// The cases that a command can lead to from any of the cases, put into a list.
#[tactic(auto, using(crate::proofs::BlockLemmas::leads_keeps))]
fn each(
    cmd: &Cmd,
    cases: &[Case],
    turn: u32,
    faults: &mut Sequence<Listed>,
    made: &mut Vec<Case>,
) -> Result<(), NoMemory>
    requires { IsTrue (is_runnable (action_of cmd.now)) }
    ensures leads { OnOk result ((ack : Ack) (going : Going) → IsAmong cases.now ack going
        → LeadsTo faults.new turn made.new.items ack (command_of (action_of cmd.now) ack going)) }
    ensures listed { KeepsListed faults.old faults.new }
{
    let mut left = cases;
    while let Some((case, rest)) = left.split_first() {
        command(cmd, case, turn, faults, made)?;
        left = rest;
    }
    Ok(())
}

/// Puts each case after a body among those that go on, if the body falls through, else among the ends.
fn leave(cases: &[Case], next: &mut Vec<Case>, ends: &mut Vec<Case>) -> Result<(), NoMemory>
    ensures parts { OnOk result ((ack : Ack) (going : Going) → IsAmong cases.now ack going
        → Parts next.new.items ends.new.items ack going) }
    ensures next { OnOk result (KeepsCases next.old.items next.new.items) }
    ensures ends { OnOk result (KeepsCases ends.old.items ends.new.items) }
{
    let mut left = cases;
    while let Some((case, rest)) = left.split_first() {
        leave_case(case, next, ends)?;
        left = rest;
    }
    Ok(())
}

/// Puts a case after a body among those that go on, if the body falls through, else among the ends.
fn leave_case(case: &Case, next: &mut Vec<Case>, ends: &mut Vec<Case>) -> Result<(), NoMemory>
    ensures parts { OnOk result ((ack : Ack) (going : Going) → IsCase case.now ack going
        → Parts next.new.items ends.new.items ack going) }
    ensures next { OnOk result (KeepsCases next.old.items next.new.items) }
    ensures ends { OnOk result (KeepsCases ends.old.items ends.new.items) }
{
    if case.falls {
        put(next, case, MOST_CASES)
    } else {
        put(ends, case, MOST_CASES)
    }
}

impl Case {
    /// The case at the begin of a block: no local has a value, and the body doesn't fall through by itself.
    #[tactic(auto, using(crate::proofs::BlockLemmas::AreIn_nothing))]
    fn at_block(&self) -> Case
        ensures { (ack : Ack) (going : Going) → IsCase self.now ack going → IsCase result ack (at_block going) }
    {
        let mut next = *self;
        next.locals = [Range::only(0); 8];
        next.falls = false;
        next
    }
}

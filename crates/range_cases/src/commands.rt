//! What a command makes of a case.
ghost use Rattle.std.specs.Prelude.{◌≡◌, ℕ, ◌≤◌, Bool, not, IsTrue, IfOk, OnOk, Ok};
ghost use Rattle.ccp_base.specs.declared.ack.Ack.{Ack};
ghost use Rattle.ccp_base.specs.Blending.{moving_average};
ghost use Rattle.ccp_base.specs.Truth.{is_true};
ghost use Rattle.value_ranges.specs.Ranges.{IsIn, HasValue};
ghost use Rattle.portus_core.specs.Programs.{term_of, action_of};
ghost use Rattle.portus_core.specs.Value.{at_place};
ghost use Rattle.portus_core.specs.Command.{Going, with_written, value_in, command_of};
ghost use Rattle.portus_core.specs.Runnable.{has_place, is_runnable};
ghost use Rattle.range_cases.specs.Listing.{KeepsListed};
ghost use Rattle.range_cases.specs.Cases.{IsCase, HasCase, IsAmong, KeepsCases, Meets, LeadsTo};

use crate::case::Case;
use crate::cases::put;
use crate::condition::refined;
use crate::listed::{Listed, list};
use crate::term::{evaluated, range_of};
use ccp_base::{NoMemory, Place, Sequence};
use portus_core::{Cmd, Expr, Var};
use value_ranges::{Range, average};

/// How many cases a command leaves, before those with the same asked are joined.
pub const MOST_CASES: usize = 16;

/// The cases that a command can lead to from one case, put into a list; the faults that it can have are listed.
#[tactic(auto, using(crate::proofs::CommandLemmas::commands))]
pub fn command(
    cmd: &Cmd,
    case: &Case,
    turn: u32,
    faults: &mut Sequence<Listed>,
    made: &mut Vec<Case>,
) -> Result<(), NoMemory>
    requires { IsTrue (is_runnable (action_of cmd.now)) }
    ensures leads { OnOk result ((ack : Ack) (going : Going) → IsCase case.now ack going
        → LeadsTo faults.new turn made.new.items ack (command_of (action_of cmd.now) ack going)) }
    ensures keeps { OnOk result (KeepsCases made.old.items made.new.items) }
    ensures listed { KeepsListed faults.old faults.new }
{
    match cmd {
        Cmd::Set(var, value) => {
            let range = evaluated(value, case, turn, faults)?;
            put_written(made, case, *var, range)
        }
        Cmd::SetIf(_, var, condition, value) => {
            evaluated(condition, case, turn, faults)?;
            evaluated(value, case, turn, faults)?;
            branch(*var, condition, true, value, case, made)
        }
        Cmd::SetUnless(_, var, condition, value) => {
            evaluated(condition, case, turn, faults)?;
            evaluated(value, case, turn, faults)?;
            branch(*var, condition, false, value, case, made)
        }
        Cmd::Ewma(place, var, weight, value) => match evaluated(value, case, turn, faults)? {
            None => Ok(()),
            Some(new) => {
                let range = blended(*place, *weight, case.read(*var), new, turn, faults)?;
                put_written(made, case, *var, range)
            }
        },
        Cmd::ZeroMicros => {
            let mut next = *case;
            next.micros = Range::only(0);
            put(made, &next, MOST_CASES)
        }
        Cmd::Report => {
            let mut next = *case;
            next.asked = true;
            put(made, &next, MOST_CASES)
        }
        Cmd::Fall => {
            let mut next = *case;
            next.falls = true;
            put(made, &next, MOST_CASES)
        }
    }
}

/// Puts the case after an assignment into a list, if there is a value.
fn put_written(
    made: &mut Vec<Case>,
    case: &Case,
    var: Var,
    range: Option<Range>,
) -> Result<(), NoMemory>
    requires { IsTrue (has_place var) }
    ensures has { OnOk result ((ack : Ack) (going : Going) (value : ℕ) → IsCase case.now ack going → HasValue range value
        → IsAmong made.new.items ack (with_written var value going)) }
    ensures keeps { OnOk result (KeepsCases made.old.items made.new.items) }
{
    match range {
        None => Ok(()),
        Some(range) => {
            let mut next = *case;
            next.write(var, range);
            put(made, &next, MOST_CASES)
        }
    }
}

/// Puts a case into a list, if there is one.
pub(crate) fn put_some(made: &mut Vec<Case>, case: Option<Case>) -> Result<(), NoMemory>
    ensures has { OnOk result ((ack : Ack) (going : Going) → HasCase case ack going → IsAmong made.new.items ack going) }
    ensures keeps { OnOk result (KeepsCases made.old.items made.new.items) }
{
    match case {
        None => Ok(()),
        Some(case) => put(made, &case, MOST_CASES),
    }
}

/// Puts the cases after a conditional assignment into a list: where the condition has the truth that is wanted the value
/// is assigned, else nothing.
fn branch(
    var: Var,
    condition: &Expr,
    wanted: bool,
    value: &Expr,
    case: &Case,
    made: &mut Vec<Case>,
) -> Result<(), NoMemory>
    requires { IsTrue (has_place var) }
    ensures skips { OnOk result ((ack : Ack) (going : Going) (held : ℕ) → IsCase case.now ack going
        → value_in (term_of condition.now) ack going ≡ Ok held → is_true held ≡ not wanted
        → IsAmong made.new.items ack going) }
    ensures writes { OnOk result ((ack : Ack) (going : Going) (held number : ℕ) → IsCase case.now ack going
        → value_in (term_of condition.now) ack going ≡ Ok held → is_true held ≡ wanted
        → value_in (term_of value.now) ack going ≡ Ok number
        → IsAmong made.new.items ack (with_written var number going)) }
    ensures keeps { OnOk result (KeepsCases made.old.items made.new.items) }
{
    put_some(made, refined(condition, !wanted, case))?;
    match refined(condition, wanted, case) {
        None => Ok(()),
        Some(first) => put_written(made, &first, var, range_of(value, &first)),
    }
}

/// The range of a moving average, with its fault listed; None if it always has one.
#[tactic(auto, using(crate::proofs::TermLemmas::meets))]
fn blended(
    place: Place,
    weight: u64,
    old: Range,
    new: Range,
    turn: u32,
    faults: &mut Sequence<Listed>,
) -> Result<Option<Range>, NoMemory>
    requires { weight ≤ 10 }
    ensures meets { IfOk result (λ found. (x y : ℕ) → IsIn old x → IsIn new y
        → Meets faults.new turn found (at_place place (moving_average weight x y))) }
    ensures keeps { KeepsListed faults.old faults.new }
{
    let reach = average(weight, old, new);
    match reach.fault {
        None => Ok(reach.values),
        Some(kind) => {
            list(faults, kind, place, turn)?;
            Ok(reach.values)
        }
    }
}

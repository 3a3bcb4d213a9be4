//! Lists of cases: a case is put at the end, or joined with one that has asked for the same.
ghost use Rattle.std.specs.Prelude.{◌≡◌, ℕ, ◌<◌, IsTrue, IfSome, OnOk, List, length, slice_index_or};
ghost use Rattle.ccp_base.specs.declared.ack.Ack.{Ack};
ghost use Rattle.portus_core.specs.declared.env.Env.{Env};
ghost use Rattle.portus_core.specs.Command.{Going};
ghost use Rattle.range_cases.specs.Cases.{AreIn, IsKept, IsCase, IsAlike, IsAlikeAt, IsAmong, KeepsCases};

use crate::case::{Case, Kept};
use ccp_base::NoMemory;
use value_ranges::Range;

/// Widens each range, so that it also has the values of the other one.
fn widen_all(ranges: &mut [Range], others: &[Range])
    requires { length ranges.old ≡ length others.now }
    ensures own { (value : ℕ → ℕ) → AreIn ranges.old value → AreIn ranges.new value }
    ensures others { (value : ℕ → ℕ) → AreIn others.now value → AreIn ranges.new value }
{
    for (i, other) in others.iter().enumerate() {
        ranges[i] = ranges[i].hull(*other);
    }
}

impl Kept {
    /// Widens the ranges, so that they also have the values of others.
    pub fn widen(&mut self, other: &Kept)
        ensures own { (env : Env) → IsKept self.old env → IsKept self.new env }
        ensures others { (env : Env) → IsKept other.now env → IsKept self.new env }
    {
        widen_all(&mut self.fields, &other.fields);
        widen_all(&mut self.controls, &other.controls);
        self.cwnd = self.cwnd.hull(other.cwnd);
        self.rate = self.rate.hull(other.rate);
    }
}

impl Case {
    /// Widens the case, so that it also has the states of another one that has asked for the same.
    fn widen(&mut self, other: &Case)
        requires { IsAlike self.old other.now }
        ensures own { (ack : Ack) (going : Going) → IsCase self.old ack going → IsCase self.new ack going }
        ensures others { (ack : Ack) (going : Going) → IsCase other.now ack going → IsCase self.new ack going }
    {
        self.kept.widen(&other.kept);
        widen_all(&mut self.locals, &other.locals);
        widen_all(&mut self.primitives, &other.primitives);
        self.micros = self.micros.hull(other.micros);
    }

    /// Whether another case has asked for the same.
    fn is_alike(&self, other: &Case) -> bool
        ensures { IsTrue result → IsAlike self.now other.now }
    {
        self.asked == other.asked
            && self.falls == other.falls
            && self.sizes.fields == other.sizes.fields
            && self.sizes.controls == other.sizes.controls
    }
}

/// The place of the last case that has asked for the same.
fn last_alike(cases: &[Case], case: &Case) -> Option<usize>
    ensures { IfSome result (λ i. IsAlikeAt cases.now i case.now) }
{
    for i in (0..cases.len()).rev() {
        if cases[i].is_alike(case) {
            return Some(i);
        }
    }
    None
}

/// Puts a case into a list. If the list has `most` cases already, the case is joined with one of them.
#[tactic(auto, using(crate::proofs::CaseLemmas::puts))]
pub fn put(cases: &mut Vec<Case>, case: &Case, most: usize) -> Result<(), NoMemory>
    ensures has { OnOk result ((ack : Ack) (going : Going) → IsCase case.now ack going
        → IsAmong cases.new.items ack going) }
    ensures keeps { OnOk result (KeepsCases cases.old.items cases.new.items) }
{
    if cases.len() >= most {
        if let Some(i) = last_alike(cases.as_slice(), case) {
            cases[i].widen(case);
            return Ok(());
        }
    }
    cases.push(*case)?;
    Ok(())
}

/// Puts all cases into a list.
pub fn put_all(cases: &mut Vec<Case>, others: &[Case], most: usize) -> Result<(), NoMemory>
    ensures has { OnOk result (KeepsCases others.now cases.new.items) }
    ensures keeps { OnOk result (KeepsCases cases.old.items cases.new.items) }
{
    let mut left = others;
    while let Some((case, rest)) = left.split_first() {
        put(cases, case, most)?;
        left = rest;
    }
    Ok(())
}

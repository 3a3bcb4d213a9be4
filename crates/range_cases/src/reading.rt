//! The range of a variable in a case, and what an assignment and a condition make of it.
ghost use Rattle.std.specs.Prelude.{◌≡◌, ℕ, ◌<◌, ◌≤◌, List, IsTrue, length, slice_index, slice_index_or, slice_set, unwrap_or};
ghost use Rattle.ccp_base.specs.declared.ack.Ack.{Ack};
ghost use Rattle.value_ranges.specs.Ranges.{IsIn};
ghost use Rattle.portus_core.specs.Value.{read_of};
ghost use Rattle.portus_core.specs.Command.{Going, with_written};
ghost use Rattle.portus_core.specs.Runnable.{has_place};
ghost use Rattle.range_cases.specs.Cases.{AreIn, IsCase};

use crate::case::Case;
use portus_core::Var;
use value_ranges::Range;

impl Case {
    /// The range of a variable.
    pub fn read(&self, var: Var) -> Range
        ensures { (ack : Ack) (going : Going) → IsCase self.now ack going
            → IsIn result (read_of var going.env going.locals ack) }
    {
        match var {
            Var::Field(i) => range_at(&self.kept.fields, i),
            Var::Control(i) => range_at(&self.kept.controls, i),
            Var::Local(i) => range_at(&self.locals, i),
            Var::Cwnd => self.kept.cwnd,
            Var::Rate => self.kept.rate,
            Var::Micros => self.micros,
            Var::Prim(n) => range_at(&self.primitives, n),
        }
    }

    /// Assigns a value of the range; a variable that doesn't exist is ignored.
    pub fn write(&mut self, var: Var, range: Range)
        requires { IsTrue (has_place var) }
        ensures { (ack : Ack) (going : Going) (value : ℕ) → IsCase self.old ack going → IsIn range value
            → IsCase self.new ack (with_written var value going) }
    {
        match var {
            Var::Field(i) => write_at(&mut self.kept.fields, self.sizes.fields, i, range),
            Var::Control(i) => write_at(&mut self.kept.controls, self.sizes.controls, i, range),
            Var::Local(i) => self.locals[i as usize] = range,
            Var::Cwnd => self.kept.cwnd = range,
            Var::Rate => self.kept.rate = range,
            Var::Micros | Var::Prim(_) => {}
        }
    }

    /// Takes up that a variable's value is in the range.
    pub fn narrow(&mut self, var: Var, range: Range)
        ensures { (ack : Ack) (going : Going) → IsCase self.old ack going
            → IsIn range (read_of var going.env going.locals ack) → IsCase self.new ack going }
    {
        match var {
            Var::Field(i) => narrow_at(&mut self.kept.fields, i, range),
            Var::Control(i) => narrow_at(&mut self.kept.controls, i, range),
            Var::Local(i) => narrow_at(&mut self.locals, i, range),
            Var::Cwnd => self.kept.cwnd = range,
            Var::Rate => self.kept.rate = range,
            Var::Micros => self.micros = range,
            Var::Prim(n) => narrow_at(&mut self.primitives, n, range),
        }
    }
}

#[tactic(auto, using(crate::proofs::RangeLemmas::reads))]
fn range_at(ranges: &[Range], i: u32) -> Range
    ensures { (value : ℕ → ℕ) → AreIn ranges.now value → IsIn result (value i) }
{
    if (i as usize) < ranges.len() {
        ranges[i as usize]
    } else {
        Range::only(0)
    }
}

/// Assigns the value with a number, if there are more values than that.
#[tactic(auto, using(crate::proofs::RangeLemmas::AreIn_set_values))]
fn write_at(ranges: &mut [Range], count: u32, i: u32, range: Range)
    requires { count ≤ length ranges.old }
    ensures { (values : List ℕ) (value : ℕ) → length values ≡ count → AreIn ranges.old (slice_index values)
        → IsIn range value → AreIn ranges.new (slice_index (slice_set values i value)) }
{
    if i < count {
        ranges[i as usize] = range;
    }
}

#[tactic(auto, using(crate::proofs::RangeLemmas::AreIn_set_same))]
fn narrow_at(ranges: &mut [Range], i: u32, range: Range)
    ensures { (value : ℕ → ℕ) → AreIn ranges.old value → IsIn range (value i) → AreIn ranges.new value }
{
    if (i as usize) < ranges.len() {
        ranges[i as usize] = range;
    }
}

//! The ranges that updates leave.
ghost use Rattle.std.specs.Prelude.{◌≡◌, ℕ, ◌<◌, length, slice_index_or};
ghost use Rattle.value_ranges.specs.declared.range.Range.{Range};
ghost use Rattle.value_ranges.specs.Ranges.{IsIn};
ghost use Rattle.program_bounds.specs.Turns.{IsWritten, HasUpdates, Widens};

use crate::premises::Item;
use ccp_base::FieldReg;
use range_cases::Kept;
use value_ranges::Range;

/// Widens the ranges by all that updates may write.
pub fn update(items: &[Item], state: &mut Kept)
    ensures widens { Widens state.old state.new }
    ensures has { HasUpdates items.now state.new }
{
    let mut left = items;
    while let Some((item, rest)) = left.split_first() {
        update_one(item.register, item.range, state);
        left = rest;
    }
}

/// Widens the range of what is written.
fn update_one(register: FieldReg, range: Range, state: &mut Kept)
    ensures widens { Widens state.old state.new }
    ensures has { (value : ℕ) → IsIn range value → IsWritten state.new register value }
{
    match register {
        FieldReg::Cwnd => state.cwnd = state.cwnd.hull(range),
        FieldReg::Rate => state.rate = state.rate.hull(range),
        FieldReg::Control(i) => {
            if i < 64 {
                widen_at(&mut state.controls, i as usize, range);
            }
        }
    }
}

/// Widens the range at a place.
#[tactic(auto, using(crate::proofs::ResetLemmas::widens))]
fn widen_at(ranges: &mut [Range], i: usize, range: Range)
    requires { i < length ranges.old }
    ensures own { (j : ℕ) (past : Range) (n : ℕ) → IsIn (slice_index_or ranges.old j past) n
        → IsIn (slice_index_or ranges.new j past) n }
    ensures has { (past : Range) (n : ℕ) → IsIn range n → IsIn (slice_index_or ranges.new i past) n }
{
    ranges[i] = ranges[i].hull(range);
}

//! The ranges at the start of an epoch, and the cases at the begin of an acknowledgement.
ghost use Rattle.std.specs.Prelude.{◌≡◌, ℕ, ◌≤◌, List, IfOk, length, slice_index};
ghost use Rattle.ccp_base.specs.declared.ack.Ack.{Ack};
ghost use Rattle.ccp_base.specs.declared.fields.FieldReg.TheVariants as reg;
ghost use Rattle.value_ranges.specs.Ranges.{IsIn};
ghost use Rattle.portus_core.specs.declared.env.Env.{Env};
ghost use Rattle.portus_core.specs.Blocks.{before_blocks};
ghost use Rattle.portus_core.specs.ProgramForm.{form_of};
ghost use Rattle.range_cases.specs.Cases.{AreIn, IsKept, HasSizes, IsCase, IsAmong};
ghost use Rattle.program_bounds.specs.Premises.{Starts, IsStart, IsOfKind, IsOfSome, range_for, declared_values};

use crate::premises::{Item, Kind, Premises};
use ccp_base::{FieldReg, NoMemory};
use portus_core::{Decl, Program};
use range_cases::{Case, Kept, Sizes, put};
use std::alloc::Global;
use value_ranges::Range;

/// The ranges of a start that meets the premises.
#[tactic(auto, using(crate::proofs::BeginLemmas::starts))]
pub fn start_ranges(program: &Program, given: &Premises) -> Kept
    requires fields { length program.now.fields.items ≤ 64 }
    requires controls { length program.now.controls.items ≤ 64 }
    ensures { (start : Env) → Starts (form_of program.now) given.now start → IsKept result start }
{
    let starts = given.starts.as_slice();
    Kept {
        fields: started(&program.fields, &[]),
        controls: started(&program.controls, starts),
        cwnd: start_range(FieldReg::Cwnd, Range::full(), starts),
        rate: start_range(FieldReg::Rate, Range::full(), starts),
    }
}

/// The ranges of declared names: of a control variable that which the items have, or else its declared value.
fn started(decls: &[Decl], starts: &[Item]) -> [Range; 64]
    requires { length decls.now ≤ 64 }
    ensures { (values : List ℕ) → length values ≡ length decls.now
        → ((i : ℕ) → IsStart (range_for (reg.Control i) starts.now)
        (λ value. value ≡ slice_index (declared_values decls.now) i) (slice_index values i))
        → AreIn result (slice_index values) }
{
    let mut ranges = [Range::only(0); 64];
    for (i, decl) in decls.iter().enumerate() {
        ranges[i] = start_range(FieldReg::Control(i as u8), Range::only(decl.start), starts);
    }
    ranges
}

/// The range that the items have for what is written, or else the declared one.
fn start_range(register: FieldReg, declared: Range, starts: &[Item]) -> Range
    ensures { (n : ℕ) → IsStart (range_for register starts.now) (λ value. IsIn declared value) n → IsIn result n }
{
    match range_for(register, starts) {
        Some(range) => range,
        None => declared,
    }
}

/// The range that the first item for what is written has.
fn range_for(register: FieldReg, items: &[Item]) -> Option<Range>
    ensures { result ≡ range_for register items.now }
{
    let mut left = items;
    while let Some((item, rest)) = left.split_first() {
        if item.register == register {
            return Some(item.range);
        }
        left = rest;
    }
    None
}

/// The cases at the begin of an acknowledgement, one for each kind.
pub fn begin(
    alloc: Global,
    sizes: Sizes,
    state: &Kept,
    kinds: &[Kind],
) -> Result<Vec<Case>, NoMemory>
    ensures { IfOk result (λ cases. (env : Env) (ack : Ack) → IsKept state.now env → HasSizes sizes env
        → IsOfSome kinds.now ack → IsAmong cases.items ack (before_blocks env)) }
{
    let mut cases = Vec::new(alloc);
    let mut left = kinds;
    while let Some((kind, rest)) = left.split_first() {
        put(&mut cases, &begin_case(sizes, state, kind), 32)?;
        left = rest;
    }
    Ok(cases)
}

/// The case at the begin of an acknowledgement of a kind.
#[tactic(auto, using(crate::proofs::BeginLemmas::begins))]
fn begin_case(sizes: Sizes, state: &Kept, kind: &Kind) -> Case
    ensures { (env : Env) (ack : Ack) → IsKept state.now env → HasSizes sizes env → IsOfKind kind.now ack
        → IsCase result ack (before_blocks env) }
{
    Case {
        kept: *state,
        sizes,
        locals: [Range::only(0); 8],
        primitives: kind.primitives,
        micros: up_to(kind.primitives[7]),
        asked: false,
        falls: false,
    }
}

/// The values up to the largest one of a range.
fn up_to(range: Range) -> Range
    ensures lo { result.lo ≡ 0 }
    ensures hi { result.hi ≡ range.hi }
{
    Range {
        lo: 0,
        hi: range.hi,
    }
}

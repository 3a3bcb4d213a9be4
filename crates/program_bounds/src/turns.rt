//! Acknowledgements on ranges, one after another.
ghost use Rattle.std.specs.Prelude.{◌≡◌, IfOk, OnOk, length};
ghost use Rattle.portus_core.specs.ProgramForm.{form_of};
ghost use Rattle.program_bounds.specs.Turns.{IsTurn, IsWithin, HasUpdates, KeepsFound, IsGoodFrom};

use crate::begin::begin;
use crate::found::Found;
use crate::premises::Premises;
use crate::settle::settle;
use crate::updates::update;
use crate::within::is_within;
use ccp_base::NoMemory;
use portus_core::Program;
use range_cases::{Kept, Sizes, blocks};
use std::alloc::Global;

/// The ranges after the last acknowledgement.
#[derive(Clone, Copy)]
pub struct Ended {
    pub now: Kept,
    /// After how many acknowledgements they stay as they are, None if they may still grow.
    pub steady: Option<u32>,
}

/// As many acknowledgements as there can be, or until the ranges stay as they are.
pub fn turns(
    alloc: Global,
    program: &Program,
    given: &Premises,
    first: Kept,
    found: &mut Found,
) -> Result<Ended, NoMemory>
    requires { HasUpdates given.now.updates first }
    ensures { IfOk result (λ ended. IsGoodFrom (form_of program.now) given.now found.new ended.now 0 first) }
{
    let mut state = first;
    for number in 0..given.acks {
        let next = turn(alloc, program, given, &state, number, found)?;
        if is_within(&next, &state) {
            return Ok(Ended {
                now: state,
                steady: Some(number),
            });
        }
        state = next;
    }
    Ok(Ended {
        now: state,
        steady: None,
    })
}

/// The ranges after one more acknowledgement, with what it can do listed and shown.
fn turn(
    alloc: Global,
    program: &Program,
    given: &Premises,
    state: &Kept,
    number: u32,
    found: &mut Found,
) -> Result<Kept, NoMemory>
    ensures turn { IfOk result (λ next. IsTurn (form_of program.now) given.now found.new number state.now next) }
    ensures within { IfOk result (λ next. IsWithin state.now next) }
    ensures updates { IfOk result (λ next. HasUpdates given.now.updates next) }
    ensures keeps { OnOk result (KeepsFound found.old found.new) }
{
    let sizes = sizes_of(program);
    let cases = begin(alloc, sizes, state, given.kinds.as_slice())?;
    let mut ends = Vec::new(alloc);
    blocks(
        alloc,
        &program.blocks,
        cases.as_slice(),
        number,
        &mut found.faults,
        &mut ends,
    )?;
    let mut next = *state;
    settle(
        program,
        ends.as_slice(),
        given.has_room,
        &mut next,
        &mut found.report,
    );
    update(given.updates.as_slice(), &mut next);
    Ok(next)
}

/// How many fields and control variables a program declares.
fn sizes_of(program: &Program) -> Sizes
    ensures fields { result.fields ≡ length program.now.fields.items }
    ensures controls { result.controls ≡ length program.now.controls.items }
{
    Sizes {
        fields: program.fields.len() as u32,
        controls: program.controls.len() as u32,
    }
}

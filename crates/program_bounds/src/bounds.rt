//! The bounds of a program's epoch.
ghost use Rattle.std.specs.Prelude.{IfOk};
ghost use Rattle.portus_core.specs.ProgramForm.{form_of};
ghost use Rattle.program_bounds.specs.Bounded.{IsBounded};

use crate::begin::start_ranges;
use crate::found::{Bounds, Found};
use crate::premises::Premises;
use crate::turns::turns;
use crate::updates::update;
use ccp_base::{NoMemory, Sequence};
use portus_core::Program;
use std::alloc::Global;

/// Which places of a program can fault, and in which ranges its values stay, for every start and every list of events
/// that meet the premises.
pub fn bounds_of(alloc: Global, program: &Program, given: &Premises) -> Result<Bounds, NoMemory>
    ensures { IfOk result (λ bounds. IsBounded (form_of program.now) given.now bounds) }
{
    let mut first = start_ranges(program, given);
    update(given.updates.as_slice(), &mut first);
    let mut found = Found {
        faults: Sequence::new(alloc),
        report: None,
    };
    let ended = turns(alloc, program, given, first, &mut found)?;
    Ok(Bounds {
        found,
        now: ended.now,
        steady: ended.steady,
    })
}

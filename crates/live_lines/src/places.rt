//! The lines of faults with their places: those of programs' instructions, by the programs' numbers.
ghost use Rattle.std.specs.Prelude.{◌≡◌, ◌++◌, List, OnOk, length, map};
ghost use Rattle.ccp_base.specs.declared.place.Place.{Place};
ghost use Rattle.flow_core.specs.Lift.{Placing, place_at};
ghost use Rattle.flow_core.specs.LiveText.{fault_lines};
ghost use Rattle.flow_core.specs.World.{Failure};
ghost use Rattle.live_lines.specs.FaultPlaces.{placed, program_places};

use ccp_base::{Bytes, NoMemory, Notice, Place};
use reg_compiler::Built;
use report_lines::put_fault;

/// What has the places of programs' instructions.
pub trait Places {
    /// By a program's number and an instruction's index, its place.
    ghost placing: { Self → Placing };

    /// The place of an instruction of the program with this number.
    fn place(&self, program: u32, index: u16) -> Place
        ensures { result ≡ placing self.now program index };
}

/// The faults of a flow with their places.
pub trait PlacedFaults {
    /// The faults in order.
    ghost failures: { Self → List (Failure Place) };

    /// Appends the lines of the faults.
    fn put(&self, text: &mut Bytes) -> Result<(), NoMemory>
        ensures { OnOk result (text.new ≡ text.old ++ fault_lines (failures self.now)) };

    /// How many faults there are.
    fn count(&self) -> usize
        ensures { result ≡ length (failures self.now) };
}

/// Appends the lines of faults with their places.
pub fn put_fault_lines<P: Places>(
    text: &mut Bytes,
    places: &P,
    faults: &[Notice],
) -> Result<(), NoMemory>
    ensures { OnOk result (text.new ≡ text.old ++ fault_lines (map (placed (P.placing places.now)) faults.now)) }
{
    let mut left = faults;
    while let Some((notice, rest)) = left.split_first() {
        let place = places.place(notice.program, notice.index);
        put_fault(text, notice, place)?;
        left = rest;
    }
    Ok(())
}

/// The places of the first program with this number; none if there is no such program.
pub fn program_places<'a>(programs: &'a [(u32, Built)], number: u32) -> &'a [Place]
    ensures { result.now ≡ program_places programs.now number }
{
    let mut left = programs;
    while let Some((program, rest)) = left.split_first() {
        if program.0 == number {
            return program.1.places.as_slice();
        }
        left = rest;
    }
    &[]
}

/// The place of an instruction among a program's places; 0:0 if it has none.
pub fn place_at(places: &[Place], index: u16) -> Place
    ensures { result ≡ place_at places.now index }
{
    match places.get(usize::from(index)) {
        None => Place { line: 0, column: 0 },
        Some(place) => *place,
    }
}

//! The source places of the instructions of a case's programs.
ghost use Rattle.std.specs.Prelude.{◌≡◌};
ghost use Rattle.campaign_report.specs.BookText.{places_in};

use ccp_base::Place;
use flow_core::Case;
use live_lines::{Places, place_at, program_places};
use reg_compiler::Built;

/// The places of the instructions of a case's two programs, which are among these.
#[derive(Clone, Copy)]
pub(crate) struct CasePlaces<'a> {
    pub(crate) programs: &'a [(u32, Built)],
    pub(crate) case: &'a Case,
}

impl<'a> Places for CasePlaces<'a> {
    ghost use Rattle.campaign_report.specs.BookText.{case_placing};

    ghost placing = { λ places. case_placing places.programs.now places.case.now };

    fn place(&self, program: u32, index: u16) -> Place {
        place_at(places_in(self.programs, self.case, program), index)
    }
}

/// The places of the program with this number, which is one of the case's two.
fn places_in<'a>(programs: &'a [(u32, Built)], case: &Case, number: u32) -> &'a [Place]
    ensures { result.now ≡ places_in programs.now case.now number }
{
    if number == case.ss.role.number {
        program_places(programs, case.ss.role.number)
    } else {
        program_places(programs, case.ca.role.number)
    }
}

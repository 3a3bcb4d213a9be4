//! A case with the source programs of its two roles, by their numbers.
ghost use Rattle.std.specs.Prelude.{◌≡◌, option_map};
ghost use Rattle.portus_core.specs.ProgramForm.{form_of};
ghost use Rattle.source_flow.specs.Sourced.{built_numbered};
ghost use Rattle.source_flow.specs.SourceStates.{form_at};

use flow_core::Case;
use portus_core::Program;
use reg_compiler::Built;

/// A case, with the programs of its roles.
#[derive(Clone, Copy)]
pub(crate) struct SourceCase<'a> {
    pub(crate) case: &'a Case,
    /// The program of slow start.
    pub(crate) ss: &'a Program,
    /// The program of congestion avoidance.
    pub(crate) ca: &'a Program,
}

impl<'a> SourceCase<'a> {
    /// The program with this number: that of slow start for its number, else that of congestion avoidance.
    pub(crate) fn program(&self, number: u32) -> &'a Program
        ensures { form_of result.now ≡ form_at self.now number }
    {
        if number == self.case.ss.role.number {
            self.ss
        } else {
            self.ca
        }
    }
}

/// The first program with this number, if there is one.
pub(crate) fn built_at(programs: &[(u32, Built)], number: u32) -> Option<&Built>
    ensures { option_map (λ built. built.now) result ≡ built_numbered programs.now number }
{
    let mut left = programs;
    while let Some((first, rest)) = left.split_first() {
        if first.0 == number {
            return Some(&first.1);
        }
        left = rest;
    }
    None
}

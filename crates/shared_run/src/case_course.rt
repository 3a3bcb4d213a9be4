//! The cases of a run, which the types of its flows name, and its course.
ghost use Rattle.std.specs.Prelude.{List, [], length};
ghost use Rattle.flow_core.specs.declared.case.Case.{Case};
ghost use Rattle.shared_link.specs.declared.shared_case.SharedCase.{SharedCase};
ghost use Rattle.shared_run.specs.Courses.{asks_in};
ghost use Rattle.shared_run.specs.CourseLaws.{asks_count, asks_rest};

use shared_rounds::Course;
use std::marker::{Brand, PhantomData};

/// The link and the cases of a run. By them a type says what a value is of a run: what comes from another thread is
/// known by its type alone.
pub(crate) trait CaseCourse {
    ghost link: { SharedCase };

    ghost cases: { List Case };
}

impl CaseCourse for Brand {
    ghost link = { record { trace = []; queue = 0; quantum_us = 0; flows = [] } };

    ghost cases = { [] };
}

/// The course of a run of these cases: what their flows ask the link for after a given number of rounds.
#[derive(Drop)]
pub(crate) struct CourseOf<C: CaseCourse> {
    of: PhantomData<C>,
}

impl<C: CaseCourse> Course for CourseOf<C> {
    ghost link = { C.link };

    ghost flows = { length C.cases };

    ghost asks = { asks_in C.link C.cases };

    ghost asks_law = { asks_count C.link C.cases };

    ghost rest_law = { asks_rest C.link C.cases };
}

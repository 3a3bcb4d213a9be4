//! What shows that the work of each worker of a live run was done.
use worker_desk::{Attended, Served};

/// What shows that each worker's work was done.
#[derive(Drop)]
pub(crate) struct Crew {
    pub(crate) served: Vec<Served>,
    pub(crate) attended: Vec<Attended>,
}

//! What shows that the work of each worker of a rollout was done.
use worker_desk::{Equipped, Served};

/// What shows that each worker's work was done.
#[derive(Drop)]
pub(crate) struct Crew {
    pub(crate) served: Vec<Served>,
    pub(crate) equipped: Vec<Equipped>,
}

//! A list that isn't closed yet, with the parts that wait before it.
use ccp_base::Place;
use portus_core::Tree;

/// A list that is open: the place of its `(`, and the parts that its own list had before it.
#[derive(Drop)]
pub struct OpenList {
    pub place: Place,
    pub before: Vec<Tree>,
}

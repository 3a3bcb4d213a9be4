//! What the next byte of a text can be in: a gap, a comment or an atom.
use ccp_base::Place;

/// What the next byte of a text is in.
#[derive(Clone, Copy)]
pub enum Within {
    Gap,
    Comment,
    /// An atom that began at this place, with the byte of this number.
    Atom(Place, u32),
}

//! What the truth of an operation says of the truth of its parts.

/// What the truth of an operation says of the truth of its parts.
#[derive(Clone, Copy)]
pub enum Way {
    /// Both parts have the same truth.
    Both,
    /// Nothing, or not by its parts' truth alone.
    Other,
}

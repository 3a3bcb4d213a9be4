//! The result of a read of an input.

/// The result of a read.
#[derive(Clone, Copy)]
pub enum Piece {
    /// This number of bytes, at least one.
    Bytes(usize),
    /// The input has no further byte.
    End,
    /// There is a further byte, beyond the limit.
    Further,
    /// The read failed.
    Failed,
}

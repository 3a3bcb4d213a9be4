//! How an input of frames ends.

use ccp_base::NoMemory;
use reply_frames::BadKind;

/// How an input of frames ends.
#[derive(Clone, Copy, PartialEq, Eq)]
pub enum FeedEnd {
    /// The source was read to its end, its frames are whole, and no other message is needed.
    Whole,
    /// After whole frames there are bytes that aren't the start of any frame: the field of the first bad byte, and its
    /// offset in the input.
    Bad(BadKind, u64),
    /// The input ends within the frame that begins at this offset, or its end is this offset and another message is
    /// needed there.
    Cut(u64),
    /// The input has more bytes than it may have.
    TooLong,
    /// A read failed.
    ReadFailed,
    /// A write failed.
    WriteFailed,
    NoMemory(NoMemory),
}

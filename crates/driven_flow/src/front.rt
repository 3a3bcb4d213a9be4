//! The reading of the scenario that a stream of frames begins with, up to its first line `---`.
ghost use Rattle.std.specs.Prelude.{◌≡◌, ◌++◌, [], ℕ, List, ◌+◌, ◌<◌, ◌≤◌, length, drop};
ghost use Rattle.std.specs.Bool.{OnTrue, OnFalse};
ghost use Rattle.ccp_base.specs.Limits.{most_input_bytes, most_frame_bytes};
ghost use Rattle.ccp_base.specs.declared.parts.Separator.TheVariants.{LineFeed};
ghost use Rattle.fold_run.specs.FirstPart.{first_of};
ghost use Rattle.fold_run.specs.Separated.{is_separator};
ghost use Rattle.feed_core.specs.FeedEnds.{stream};
ghost use Rattle.driven_flow.specs.Front.{AllowsFront, IsFrontRead, DividedAtSeparator, DividedAtFirst, DividedGoesOn};
ghost use Rattle.driven_flow.specs.FrontLines.{longest_separator, IsOther, IsWithinLine, IsNext, IsCounted};
ghost use Rattle.driven_flow.specs.FrontLines.{IsMoved, IsMore, IsTextRead};

use ccp_base::{Bytes, NoMemory, without_return};
use feed_core::{Duplex, Piece, Rest};
use memchr::memchr;
use std::alloc::Global;

/// The bytes of the longest text.
const LIMIT: usize = 1048576;

/// The bytes that a read may take; a rest has no room for more.
const ROOM: usize = 8596;

/// The text before the first line `---` of a stream, and where the bytes after that line begin.
#[derive(Drop)]
pub struct Front {
    /// The bytes before the line, with the LF that ends the line before it; at most 1,048,576.
    pub text: Bytes,
    /// The number of bytes up to the LF that ends the line, with it.
    pub eaten: usize,
}

/// Why the text before the first line `---` can't be had.
#[derive(Clone, Copy)]
pub enum FrontFault {
    /// More than 1,048,576 bytes come before the line, or without one.
    TooLong,
    /// The stream ends without such a line.
    NoSeparator,
    /// A read failed.
    ReadFailed,
    /// Memory ran out.
    NoMemory(NoMemory),
}

/// How the bytes that come begin, where each number counts bytes.
#[derive(Clone, Copy)]
enum Line {
    /// With the line `---` and its LF.
    Separator(usize),
    /// With another line's end, or such a line, and its LF (false), or with a part of a line that isn't `---`, whatever
    /// follows, where no LF is there (true).
    Text(usize, bool),
    /// With nothing, or with what may be the line `---`, as more bytes decide.
    Open,
}

/// Reads a stream up to the LF that ends its first line `---`, which may have a CR before the LF, in whatever pieces
/// the bytes come. The bytes of the last piece after that LF stay in the rest, which must be empty before; they are
/// fewer than the 8,596 of the longest frame. A line `---` that no LF ends doesn't count. Nothing is written, and at
/// most 1,057,172 bytes are taken: the longest text and the longest frame.
pub fn read_front<D: Duplex>(
    alloc: Global,
    duplex: &mut D,
    rest: &mut Rest,
) -> Result<Front, FrontFault>
    requires empty { rest.old ≡ [] }
    requires allowed { AllowsFront D.remaining D.written D.is_finished D.Follows D.MayRead duplex.old }
    ensures follows { D.Follows duplex.old duplex.new }
    ensures written { D.written duplex.new ≡ D.written duplex.old }
    ensures write_faults { D.write_faults duplex.new ≡ D.write_faults duplex.old }
    ensures finished { D.is_finished duplex.old → D.is_finished duplex.new }
    ensures reads { D.read_faults duplex.old ≤ D.read_faults duplex.new }
    ensures front { IsFrontRead
        (stream (D.remaining duplex.old) (D.remaining duplex.new)
        (D.read_faults duplex.old) (D.read_faults duplex.new)) rest.new result }
{
    let mut text = Bytes::new(alloc);
    let eaten = read_text(duplex, rest, &mut text)?;
    Ok(Front { text, eaten })
}

/// Reads up to the LF of the first line `---`, appends what comes before the line to the empty text, and returns how
/// many bytes came up to that LF, with it.
fn read_text<D: Duplex>(
    duplex: &mut D,
    rest: &mut Rest,
    text: &mut Bytes,
) -> Result<usize, FrontFault>
    requires empty { rest.old ≡ [] }
    requires none { text.old ≡ [] }
    requires allowed { AllowsFront D.remaining D.written D.is_finished D.Follows D.MayRead duplex.old }
    ensures follows { D.Follows duplex.old duplex.new }
    ensures written { D.written duplex.new ≡ D.written duplex.old }
    ensures write_faults { D.write_faults duplex.new ≡ D.write_faults duplex.old }
    ensures finished { D.is_finished duplex.old → D.is_finished duplex.new }
    ensures reads { D.read_faults duplex.old ≤ D.read_faults duplex.new }
    ensures read { IsTextRead
        (stream (D.remaining duplex.old) (D.remaining duplex.new)
        (D.read_faults duplex.old) (D.read_faults duplex.new)) text.new rest.new result }
{
    let mut inside = false;
    loop {
        match next_line(rest.as_slice(), inside) {
            Line::Separator(count) => {
                rest.drop_front(count);
                return Ok(text.len() + count);
            }
            Line::Text(count, unended) => {
                move_front(rest, text, count)?;
                inside = unended;
            }
            Line::Open => read_more(duplex, rest, text.len())?,
        }
    }
}

/// How bytes begin, at a line's start or inside a line that isn't `---`.
fn next_line(bytes: &[u8], inside: bool) -> Line
    ensures next { (line : List ℕ) → IsWithinLine inside line → IsNext line bytes.now result }
    ensures counted { IsCounted (length bytes.now) result }
{
    let Some(at) = memchr(b'\n', bytes) else {
        return next_part(bytes, inside);
    };
    if !inside && is_separator(&bytes[..at]) {
        Line::Separator(at + 1)
    } else {
        Line::Text(at + 1, false)
    }
}

/// How bytes without a LF begin.
fn next_part(bytes: &[u8], inside: bool) -> Line
    requires unended { first_of LineFeed bytes.now ≡ bytes.now }
    ensures next { (line : List ℕ) → IsWithinLine inside line → IsNext line bytes.now result }
    ensures counted { IsCounted (length bytes.now) result }
{
    if bytes.is_empty() || (!inside && may_separate(bytes)) {
        Line::Open
    } else {
        Line::Text(bytes.len(), true)
    }
}

/// Whether a line is `---`, with or without a CR at its end.
fn is_separator(line: &[u8]) -> bool
    ensures { result ≡ is_separator line.now }
{
    without_return(line) == b"---".as_slice()
}

/// Whether a line that begins with these bytes may be `---`.
fn may_separate(bytes: &[u8]) -> bool
    ensures yes { OnTrue result (longest_separator ≡ bytes.now ++ drop (length bytes.now) longest_separator) }
    ensures no { OnFalse result (IsOther bytes.now) }
    ensures few { OnTrue result (length bytes.now ≤ 4) }
{
    b"---\r".as_slice().starts_with(bytes)
}

/// Moves bytes from the front of the rest to the end of the text, unless it is too long then.
fn move_front(rest: &mut Rest, text: &mut Bytes, count: usize) -> Result<(), FrontFault>
    requires short { length text.old ≤ most_input_bytes }
    requires within { count ≤ length rest.old }
    ensures moved { IsMoved count text.old rest.old text.new rest.new result }
{
    if count > LIMIT - text.len() {
        return Err(FrontFault::TooLong);
    }
    match text.extend(&rest.as_slice()[..count]) {
        Ok(()) => {
            rest.drop_front(count);
            Ok(())
        }
        Err(error) => Err(FrontFault::NoMemory(NoMemory::from(error))),
    }
}

/// Reads a piece into the rest, behind a text of `text` bytes. At the source's end there is no line `---`, and text
/// and rest may be too long without one.
fn read_more<D: Duplex>(duplex: &mut D, rest: &mut Rest, text: usize) -> Result<(), FrontFault>
    requires few { length rest.old < most_frame_bytes }
    requires within { text ≤ most_input_bytes }
    requires allowed { D.MayRead duplex.old }
    ensures follows { D.Follows duplex.old duplex.new }
    ensures written { D.written duplex.new ≡ D.written duplex.old }
    ensures write_faults { D.write_faults duplex.new ≡ D.write_faults duplex.old }
    ensures finished { D.is_finished duplex.old → D.is_finished duplex.new }
    ensures counted { D.read_faults duplex.old ≤ D.read_faults duplex.new }
    ensures came { IsMore (D.read_faults duplex.old) (D.read_faults duplex.new) (D.remaining duplex.old)
        (D.remaining duplex.new) text rest.old rest.new result }
{
    let left = rest.len();
    match rest.read(duplex, ROOM) {
        Piece::Bytes(_) => Ok(()),
        Piece::End if text + left <= LIMIT => Err(FrontFault::NoSeparator),
        // Further doesn't come, since there is room.
        Piece::End | Piece::Further => Err(FrontFault::TooLong),
        Piece::Failed => Err(FrontFault::ReadFailed),
    }
}

/// A law: a stream is divided at its first line `---` that a LF ends, and at no other place; what follows changes
/// nothing of the text before that line.
pub fn front_law()
    ensures at_separator { DividedAtSeparator }
    ensures at_first { DividedAtFirst }
    ensures goes_on { DividedGoesOn }
{}

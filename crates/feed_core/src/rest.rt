//! The bytes of an input that nothing has taken yet.

ghost use Rattle.std.specs.Prelude.{◌≡◌, ◌-◌, ◌<◌, ◌≤◌, [], length, take, drop};
ghost use Rattle.ccp_base.specs.Limits.{most_frame_bytes};
ghost use Rattle.feed_core.specs.Rests.{between, IsPiece};

use crate::duplex::Duplex;
use crate::piece::Piece;
use std::marker::Model;

/// The bytes of the longest frame.
const LONGEST: usize = 8596;

/// The bytes that were read of an input and that nothing has taken yet, at most 8,596.
#[derive(Drop)]
pub struct Rest {
    bytes: [u8; LONGEST],
    start: usize,
    end: usize,
}

impl Model for Rest {
    ghost use Rattle.std.specs.Prelude.{ℕ, ◌≤◌, List};
    ghost use Rattle.ccp_base.specs.Limits.{most_frame_bytes};
    ghost use Rattle.feed_core.specs.Rests.{between};

    ghost Value = { List ℕ };

    ghost view = { λ rest. between rest.bytes rest.start rest.end };

    ghost invariant = { λ rest. (rest.start ≤ rest.end) × (rest.end ≤ most_frame_bytes) };
}

impl Rest {
    /// No bytes.
    pub fn new() -> Self
        ensures { result ≡ [] }
    {
        Rest {
            bytes: [0; LONGEST],
            start: 0,
            end: 0,
        }
    }

    /// How many bytes there are.
    pub fn len(&self) -> usize
        ensures { result ≡ length self.now }
    {
        self.end - self.start
    }

    /// The bytes.
    pub fn as_slice(&self) -> &[u8]
        ensures bytes { result.now ≡ self.now }
        ensures few { length self.now ≤ most_frame_bytes }
    {
        &self.bytes[self.start..self.end]
    }

    /// Takes `count` bytes off the front.
    pub fn drop_front(&mut self, count: usize)
        requires { count ≤ length self.old }
        ensures { self.new ≡ drop count self.old }
    {
        self.start += count;
    }

    /// Reads a piece of at most `room` bytes and appends it. If `room` is 0 it asks for one byte, and keeps none. Before
    /// it, fewer than 8,596 bytes are there.
    pub fn read<D: Duplex>(&mut self, duplex: &mut D, room: usize) -> Piece
        requires few { length self.old < most_frame_bytes }
        requires allowed { D.MayRead duplex.old }
        ensures follows { D.Follows duplex.old duplex.new }
        ensures written { D.written duplex.new ≡ D.written duplex.old }
        ensures write_faults { D.write_faults duplex.new ≡ D.write_faults duplex.old }
        ensures finished { D.is_finished duplex.old → D.is_finished duplex.new }
        ensures counted { D.read_faults duplex.old ≤ D.read_faults duplex.new }
        ensures came { IsPiece (D.read_faults duplex.old) (D.read_faults duplex.new) (D.remaining duplex.old)
            (D.remaining duplex.new) room self.old self.new result }
    {
        settle(&mut self.bytes, self.start, self.end);
        self.end -= self.start;
        self.start = 0;
        let asked = room.max(1).min(LONGEST - self.end);
        let to = self.end + asked;
        match duplex.read(&mut self.bytes[self.end..to]) {
            Err(_) => Piece::Failed,
            Ok(0) => Piece::End,
            Ok(_) if room == 0 => Piece::Further,
            Ok(count) => {
                self.end += count;
                Piece::Bytes(count)
            }
        }
    }
}

/// Moves the bytes from `start` up to `end` to the front.
fn settle(bytes: &mut [u8; LONGEST], start: usize, end: usize)
    requires ordered { start ≤ end }
    requires within { end ≤ most_frame_bytes }
    ensures { between bytes.new 0 (end - start) ≡ between bytes.old start end }
{
    bytes.copy_within(start..end, 0);
}

//! Short texts held in place: names and words of 1 to 64 bytes.
ghost use Rattle.std.specs.Prelude.{◌≡◌, ◌≤◌, ◌++◌, drop, length};
ghost use Rattle.ccp_base.specs.InPlace.{pad};
ghost use Rattle.ccp_base.specs.Limits.{most_name_bytes};
ghost use Rattle.ccp_base.specs.Named.{as_name};

use crate::sequence::Sequence;
use std::marker::Model;

/// The longest name, in bytes.
pub const NAME_BYTES: usize = 64;

/// A text of 1 to 64 bytes, held in place.
#[derive(Clone, Copy, PartialEq, Eq, Hash, Debug)]
pub struct Name {
    bytes: [u8; 64],
    count: usize,
}

impl Model for Name {
    ghost use Rattle.std.specs.Prelude.{ℕ, List, take, length};
    ghost use Rattle.ccp_base.specs.InPlace.{pad};
    ghost use Rattle.ccp_base.specs.Named.{IsHeld, bytes-held, count-held};

    ghost Value = { List ℕ };

    ghost view = { λ n. take n.count n.bytes };

    ghost invariant = { λ n. IsHeld n.bytes n.count };

    ghost inverse = { λ xs. record { bytes = pad 64 0 xs; count = length xs } };

    ghost inverse_ok = { λ a h. λ i.
        record { bytes = bytes-held a.bytes a.count h i; count = count-held a.bytes a.count h i } };
}

impl Name {
    /// The name with this text; None exactly if the text is empty or longer than 64 bytes.
    pub fn new(text: &[u8]) -> Option<Self>
        ensures { result ≡ as_name text.now }
    {
        if text.is_empty() || text.len() > NAME_BYTES {
            return None;
        }
        Some(Name {
            bytes: pad(text),
            count: text.len(),
        })
    }

    /// The name's text.
    pub fn as_slice(&self) -> &[u8]
        ensures text { result.now ≡ self.now }
        ensures some { 1 ≤ length self.now }
        ensures within { length self.now ≤ most_name_bytes }
    {
        &self.bytes[..self.count]
    }
}

// A function of its own: over slices, so its clause names no array.
/// Writes the text over the front of a longer piece.
fn write_front(out: &mut [u8], text: &[u8])
    requires { length text.now ≤ length out.old }
    ensures { out.new ≡ text.now ++ drop (length text.now) out.old }
{
    out[..text.len()].copy_from_slice(text);
}

/// The text, padded with 0.
fn pad(text: &[u8]) -> [u8; 64]
    requires { length text.now ≤ most_name_bytes }
    ensures { result ≡ pad 64 0 text.now }
{
    let mut bytes = [0; 64];
    write_front(&mut bytes, text);
    bytes
}

/// Names in order.
pub type Names = Sequence<Name>;

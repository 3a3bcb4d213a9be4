//! The names of an acknowledgement's primitives, as lines give them and as programs write them.
ghost use Rattle.std.specs.Prelude.{◌≡◌, ◌<◌, ◌∷◌, ◌++◌, length, position};
ghost use Rattle.std.specs.Option.{ForSome};
ghost use Rattle.std.specs.Str.{bytes_eq};
ghost use Rattle.ccp_base.specs.Limits.{primitive_count};
ghost use Rattle.ccp_base.specs.PrimitiveNames.{value_named, primitive_named};

use crate::equality::same_bytes;

/// The primitives by their names, in the order of the fields of `Ack`: the prefix, which a program writes before a
/// dot, and the name.
pub const PRIMITIVE_NAMES: [(&[u8], &[u8]); 15] = [
    (b"Ack", b"bytes_acked"),
    (b"Ack", b"packets_acked"),
    (b"Ack", b"bytes_misordered"),
    (b"Ack", b"packets_misordered"),
    (b"Ack", b"ecn_bytes"),
    (b"Ack", b"ecn_packets"),
    (b"Ack", b"lost_pkts_sample"),
    (b"Ack", b"now"),
    (b"Flow", b"bytes_in_flight"),
    (b"Flow", b"packets_in_flight"),
    (b"Flow", b"bytes_pending"),
    (b"Flow", b"rate_incoming"),
    (b"Flow", b"rate_outgoing"),
    (b"Flow", b"rtt_sample_us"),
    (b"Flow", b"was_timeout"),
];

/// The number of the primitive with this name, from 0 to 14; None if no primitive has it.
pub fn value_named(name: &[u8]) -> Option<usize>
    ensures number { result ≡ value_named name.now }
    ensures below { ForSome result (λ n. n < primitive_count) }
{
    place_of_name(&PRIMITIVE_NAMES, name)
}

/// The number of the primitive that a program writes as this word, for example 0 for `Ack.bytes_acked`; None if no
/// primitive is written so.
pub fn primitive_named(word: &[u8]) -> Option<usize>
    ensures number { result ≡ primitive_named word.now }
    ensures below { ForSome result (λ n. n < primitive_count) }
{
    place_of_word(&PRIMITIVE_NAMES, word)
}

// A function of its own: its clause is over any table, so the search proves it without the names.
fn place_of_name(known: &[(&[u8], &[u8])], name: &[u8]) -> Option<usize>
    ensures number { result ≡ position (λ k. bytes_eq name.now k.1.now) known.now }
    ensures within { ForSome result (λ n. n < length known.now) }
{
    known.iter().position(|known| same_bytes(name, known.1))
}

// As above, for whole words.
fn place_of_word(known: &[(&[u8], &[u8])], word: &[u8]) -> Option<usize>
    ensures number { result ≡ position (λ k. bytes_eq word.now (k.0.now ++ 46 ∷ k.1.now)) known.now }
    ensures within { ForSome result (λ n. n < length known.now) }
{
    known
        .iter()
        .position(|known| is_word(word, known.0, known.1))
}

/// Whether a word is this prefix, a dot and this name.
fn is_word(word: &[u8], prefix: &[u8], name: &[u8]) -> bool
    ensures { result ≡ bytes_eq word.now (prefix.now ++ 46 ∷ name.now) }
{
    match word.strip_prefix(prefix) {
        Some(rest) => is_dotted(rest, name),
        None => false,
    }
}

fn is_dotted(word: &[u8], name: &[u8]) -> bool
    ensures { result ≡ bytes_eq word.now (46 ∷ name.now) }
{
    match word.split_first() {
        Some((first, rest)) => *first == b'.' && same_bytes(rest, name),
        None => false,
    }
}

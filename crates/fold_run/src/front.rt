//! What follows a front that a text may have. `strip_prefix` gives the same, byte by byte and by a call; here the compiler
//! writes out the comparisons with a front that it knows.
ghost use Rattle.std.specs.Prelude.{◌≡◌, ◌++◌, List, ℕ, IfSome};
ghost use Rattle.std.specs.Bool.{OnTrue};
ghost use Rattle.std.specs.Int.{w64, from_le_bytes};
ghost use Rattle.fold_run.specs.Fronts.{LeavesOf};

/// A text and a front, both without the same bytes before them.
#[derive(Clone, Copy)]
struct Left<'a, 'b> {
    text: &'a [u8],
    front: &'b [u8],
}

/// What follows this front of a text, if the text has it.
#[inline(always)]
pub fn after_front<'a>(text: &'a [u8], front: &[u8]) -> Option<&'a [u8]>
    ensures { IfSome result (λ rest. text.now ≡ front.now ++ rest.now) }
{
    let Some(left) = after_words(text, front) else {
        return None;
    };
    after_bytes(left.text, left.front)
}

/// A text and a front without the first bytes that both have, eight at once, if they have them.
#[inline(always)]
fn after_words<'a, 'b>(text: &'a [u8], front: &'b [u8]) -> Option<Left<'a, 'b>>
    ensures { IfSome result (λ left. LeavesOf text.now front.now left.text.now left.front.now) }
{
    let mut left = text;
    let mut known = front;
    while let Some((word, later)) = known.split_first_chunk::<8>() {
        let Some((first, rest)) = left.split_first_chunk::<8>() else {
            return None;
        };
        if !same_word(first, word) {
            return None;
        }
        left = rest;
        known = later;
    }
    Some(Left {
        text: left,
        front: known,
    })
}

/// As `after_front`, byte by byte.
#[inline(always)]
fn after_bytes<'a>(text: &'a [u8], front: &[u8]) -> Option<&'a [u8]>
    ensures { IfSome result (λ rest. text.now ≡ front.now ++ rest.now) }
{
    let mut left = text;
    let mut known = front;
    while let Some((byte, later)) = known.split_first() {
        let Some((first, rest)) = left.split_first() else {
            return None;
        };
        if *first != *byte {
            return None;
        }
        left = rest;
        known = later;
    }
    Some(left)
}

/// Whether eight bytes are these, by one comparison.
#[inline(always)]
fn same_word(bytes: &[u8; 8], others: &[u8; 8]) -> bool
    ensures { OnTrue result (bytes.now ≡ others.now) }
{
    word_of(bytes) == word_of(others)
}

/// Eight bytes as a number.
#[inline(always)]
fn word_of(bytes: &[u8; 8]) -> u64
    ensures { result ≡ from_le_bytes w64 bytes.now }
{
    u64::from_le_bytes([
        bytes[0], bytes[1], bytes[2], bytes[3], bytes[4], bytes[5], bytes[6], bytes[7],
    ])
}

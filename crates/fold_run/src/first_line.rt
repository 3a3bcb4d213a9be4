//! How a text is cut after its first line.
ghost use Rattle.std.specs.Prelude.{◌≡◌, ◌<◌, ◌≤◌, ◌+◌, ◌∷◌, length};
ghost use Rattle.ccp_base.specs.Parts.{parts_of};
ghost use Rattle.ccp_base.specs.declared.parts.Separator.TheVariants.{LineFeed};
ghost use Rattle.fold_run.specs.FirstPart.{first_of, after_separator};

use memchr::memchr;

/// The first line of a text, without its LF, and what follows it. `ccp_base::first_part` gives the same, but searches
/// byte by byte; most of the time of a long input is in this search.
pub fn first_line(text: &[u8]) -> (&[u8], &[u8])
    requires { 0 < length text.now }
    ensures line { result.0.now ≡ first_of LineFeed text.now }
    ensures after { result.1.now ≡ after_separator LineFeed text.now }
    ensures parts { parts_of LineFeed text.now ≡ result.0.now ∷ parts_of LineFeed result.1.now }
    ensures shorter { length result.1.now < length text.now }
    ensures within { length result.0.now + length result.1.now ≤ length text.now }
{
    match memchr(b'\n', text) {
        None => (text, &text[text.len()..]),
        Some(at) => (&text[..at], &text[at + 1..]),
    }
}

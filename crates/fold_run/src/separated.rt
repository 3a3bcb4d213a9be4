//! Cuts an input at its first line `---` into the program's text and the lines below it.
ghost use Rattle.std.specs.Prelude.{◌≡◌, ◌+◌, ◌<◌, ◌≤◌, IfSome, IfNone, Some, None, length, codes};
ghost use Rattle.std.specs.Bool.{OnTrue};
ghost use Rattle.std.specs.Str.{bytes_eq};
ghost use Rattle.fold_run.specs.Separated.{cut_as, cut_of, is_separator};

use crate::first_line::first_line;
use ccp_base::without_return;

/// A text that is cut in two at its first line `---`.
#[derive(Clone, Copy)]
pub struct Separated<'a> {
    /// The bytes before that line, with the LF that ends the line before it.
    pub program: &'a [u8],
    /// The bytes after that line.
    pub rest: &'a [u8],
    /// The number in the whole text, counted from 1, of the first line of the rest.
    pub next: u64,
}

/// Cuts a text at its first line `---`, which may have a CR at its end; None exactly if there is no such line.
pub fn separate(text: &[u8]) -> Option<Separated<'_>>
    ensures found { IfSome result (λ s. cut_of text.now ≡ Some (cut_as s)) }
    ensures none { IfNone result (cut_of text.now ≡ None) }
    ensures next { IfSome result (λ s. s.next + length s.rest.now < length text.now) }
{
    let mut before = 0;
    let mut left = text;
    while !left.is_empty() {
        let (line, after) = first_line(left);
        if is_separator(line) {
            return Some(Separated {
                program: &text[..text.len() - left.len()],
                rest: after,
                next: before + 2,
            });
        }
        left = after;
        before += 1;
    }
    None
}

/// Whether a line is `---`, with or without a CR at its end.
fn is_separator(line: &[u8]) -> bool
    ensures separator { result ≡ is_separator line.now }
    ensures long { OnTrue result (3 ≤ length line.now) }
{
    without_return(line) == b"---".as_slice()
}

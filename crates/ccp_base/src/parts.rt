//! How a text is cut at its first line feed or blank, and how a line loses the CR at its end.
ghost use Rattle.std.specs.Prelude.{◌≡◌, ◌+◌, ◌<◌, ◌≤◌, ◌∷◌, length};
ghost use Rattle.ccp_base.specs.Parts.{separates, parts_of, IsSplit, without_last};

/// What ends a part of a text.
#[derive(Clone, Copy)]
pub enum Separator {
    /// LF, which ends a line.
    LineFeed,
    /// Space or tab, which ends a word.
    Blank,
}

impl Separator {
    /// Whether the byte is this separator.
    pub fn is(self, byte: u8) -> bool
        ensures { result ≡ separates self byte }
    {
        match self {
            Separator::LineFeed => byte == b'\n',
            Separator::Blank => byte == b' ' || byte == b'\t',
        }
    }
}

/// The first part of a text, without its separator, and what follows it.
pub fn first_part(text: &[u8], separator: Separator) -> (&[u8], &[u8])
    requires { 0 < length text.now }
    ensures parts { parts_of separator text.now ≡ result.0.now ∷ parts_of separator result.1.now }
    ensures split { 0 < length result.1.now → IsSplit separator text.now result.0.now result.1.now }
    ensures shorter { length result.1.now < length text.now }
    ensures within { length result.0.now + length result.1.now ≤ length text.now }
{
    for (i, byte) in text.iter().enumerate() {
        if separator.is(*byte) {
            return (&text[..i], &text[i + 1..]);
        }
    }
    (text, &text[text.len()..])
}

/// A line without a CR at its end.
pub fn without_return(line: &[u8]) -> &[u8]
    ensures line { result.now ≡ without_last 13 line.now }
    ensures within { length result.now ≤ length line.now }
{
    let Some((last, front)) = line.split_last() else {
        return line;
    };
    if *last == b'\r' { front } else { line }
}

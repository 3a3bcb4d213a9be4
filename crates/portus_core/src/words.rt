//! Which words are shaped as names.
ghost use Rattle.std.specs.Prelude.{◌≡◌};
ghost use Rattle.std.specs.List.{list_all};
ghost use Rattle.portus_core.specs.Words.{is_first, is_later, is_name_shaped};

/// Whether a byte may begin a name.
fn is_first(c: u8) -> bool
    ensures { result ≡ is_first c }
{
    c.is_ascii_alphabetic() || c == b'_'
}

/// Whether a byte may follow in a name.
fn is_later(c: u8) -> bool
    ensures { result ≡ is_later c }
{
    c.is_ascii_alphanumeric() || c == b'_' || c == b'.'
}

/// Whether all the bytes may follow in a name.
fn are_later(rest: &[u8]) -> bool
    ensures { result ≡ list_all is_later rest.now }
{
    rest.iter().all(|c| is_later(*c))
}

/// Whether a word is shaped as a name: a letter or `_`, then letters, digits, `_` and `.`.
pub fn is_name_shaped(w: &[u8]) -> bool
    ensures { result ≡ is_name_shaped w.now }
{
    match w.split_first() {
        None => false,
        Some((first, rest)) => is_first(*first) && are_later(rest),
    }
}

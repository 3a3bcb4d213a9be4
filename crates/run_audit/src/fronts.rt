//! What follows a given front of a text, if the text begins with it.
ghost use Rattle.std.specs.Prelude.{◌≡◌};
ghost use Rattle.run_audit.specs.Fronts.{text_after, bytes_found};

/// What follows this front of a text; None exactly if the text doesn't begin with it.
pub fn text_after<'a>(text: &'a [u8], front: &[u8]) -> Option<&'a [u8]>
    ensures { bytes_found result ≡ text_after front.now text.now }
{
    text.strip_prefix(front)
}

//! Equality of texts and of numbers. Each is a function of its own: the search turns its `==` into an equation, which a
//! comparison part by part takes from the clause.
ghost use Rattle.std.specs.Prelude.{◌≡◌, ◌↔◌, IsTrue};
ghost use Rattle.std.specs.Str.{bytes_eq};

/// Whether two texts are equal.
pub fn same_bytes(left: &[u8], right: &[u8]) -> bool
    ensures computed { result ≡ bytes_eq left.now right.now }
    ensures equal { IsTrue result ↔ (left.now ≡ right.now) }
{
    left == right
}

/// Whether two numbers are equal, or both are missing.
pub fn same_number(left: Option<u32>, right: Option<u32>) -> bool
    ensures { IsTrue result ↔ (left ≡ right) }
{
    left == right
}

//! Cube roots and scaled quotients of whole numbers.
#![tactic(auto)]

ghost use Rattle.std.specs.Prelude.{◌≡◌, ℕ, ◌+◌, ◌-◌, ◌*◌, ◌/◌, ◌^◌, ◌<◌, ◌≤◌, min};
ghost use Rattle.int_roots.specs.Roots.{IsCubeRoot, root};

/// The number of bits of a cube root of a number below 2^96.
const ROOT_BITS: u32 = 32;

/// The cube root of `n`, cut to a whole number: the greatest `k` with `k^3 <= n`.
///
/// It is found bit by bit, so the work is the same for every `n`.
pub fn cbrt(n: u128) -> u64
    requires { n < 2 ^ 96 }
    ensures greatest { IsCubeRoot n result }
    ensures value { result ≡ root n }
{
    let mut k: u64 = 0;
    for bit in (0..ROOT_BITS).rev() {
        let candidate = k + (1 << bit);
        if cube(candidate) <= n {
            k = candidate;
        }
    }
    k
}

/// The third power of `k`.
fn cube(k: u64) -> u128
    requires { k < 2 ^ 32 }
    ensures { result ≡ k * k * k }
{
    let k = u128::from(k);
    k * k * k
}

/// `a * b / c`, cut to a whole number, or 2^64 - 1 if that is less.
pub fn muldiv(a: u64, b: u64, c: u64) -> u64
    requires { 0 < c }
    ensures { result ≡ min (a * b / c) (2 ^ 64 - 1) }
{
    let quotient = u128::from(a) * u128::from(b) / u128::from(c);
    quotient.min(u128::from(u64::MAX)) as u64
}

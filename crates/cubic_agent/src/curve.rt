//! CUBIC's curve: the window W_cubic over time, and K, the time to its middle (RFC 9438, section 4.2).
ghost use Rattle.std.specs.Prelude.{◌≡◌};
ghost use Rattle.cubic_agent.specs.Curve.{distance_to, rise_of, w_cubic, k_of};

use int_roots::cbrt;

/// The farthest that a time is taken to be from K, in milliseconds.
const DISTANCE: u64 = 1_000_000;

/// The RFC's C, 0.4 segments per second cubed, is `C / C_UNIT` thousandths of a segment per millisecond cubed.
const C: u64 = 4;

const C_UNIT: u64 = 10_000_000;

/// `C_UNIT / C`.
const C_INVERSE: u64 = 2_500_000;

/// How far a time is from K, both in milliseconds.
fn distance_to(k: u64, t: u64) -> u64
    ensures { result ≡ distance_to k t }
{
    t.abs_diff(k).min(DISTANCE)
}

/// What the curve is above or below its middle, in thousandths of a segment, at this distance from it in
/// milliseconds: C times the distance cubed.
fn rise(distance: u64) -> u64
    ensures { result ≡ rise_of distance }
{
    C.saturating_mul(distance)
        .saturating_mul(distance)
        .saturating_mul(distance)
        / C_UNIT
}

/// W_cubic(t), by W_max in thousandths of a segment and K in milliseconds (RFC 9438, section 4.2).
pub(crate) fn w_cubic(w_max: u64, k: u64, t: u64) -> u64
    ensures { result ≡ w_cubic w_max k t }
{
    let rise = rise(distance_to(k, t));
    if t >= k {
        w_max.saturating_add(rise)
    } else {
        w_max.saturating_sub(rise)
    }
}

/// K in milliseconds: the time that the curve takes from a window to W_max, the cube root of their difference
/// over C (RFC 9438, section 4.2).
pub(crate) fn time_to_maximum(w_max: u64, window: u64) -> u64
    ensures { result ≡ k_of w_max window }
{
    cbrt(u128::from(w_max.saturating_sub(window).saturating_mul(C_INVERSE)))
}

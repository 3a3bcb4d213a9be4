//! CUBIC's windows in thousandths of a segment: their bounds, and what a loss event leaves (RFC 9438).
ghost use Rattle.std.specs.Prelude.{◌≡◌};
ghost use Rattle.cubic_agent.specs.Window.{bytes_of, clamped_window, decreased, converged};

/// One segment, and the least window, in thousandths of a segment.
pub(crate) const SEGMENT: u64 = 1000;

/// The greatest window, in thousandths of a segment.
pub(crate) const WINDOW_MOST: u64 = 4_096_000;

/// The least threshold, in thousandths of a segment (RFC 9438, section 4.6).
const THRESHOLD_LEAST: u64 = 2000;

/// The RFC's beta, 0.7, is `BETA / BETA_UNIT`.
const BETA: u64 = 7;

const BETA_UNIT: u64 = 10;

/// What fast convergence leaves of a window, `(1 + beta) / 2`, is `CONVERGENCE / CONVERGENCE_UNIT`.
const CONVERGENCE: u64 = 17;

const CONVERGENCE_UNIT: u64 = 20;

/// A window in thousandths of a segment, in bytes.
pub(crate) fn bytes(mss: u32, window: u64) -> u64
    ensures { result ≡ bytes_of mss window }
{
    window.saturating_mul(u64::from(mss)) / SEGMENT
}

/// A window held from one segment to 4,096 segments.
pub(crate) fn clamped_window(window: u64) -> u64
    ensures { result ≡ clamped_window window }
{
    window.min(WINDOW_MOST).max(SEGMENT)
}

/// The window after a loss event: beta of the one before, at least 2 segments (RFC 9438, section 4.6).
pub(crate) fn decrease(window: u64) -> u64
    ensures { result ≡ decreased window }
{
    (window.saturating_mul(BETA) / BETA_UNIT).max(THRESHOLD_LEAST)
}

/// W_max after a loss event: the window, but (1 + beta) / 2 of it if it didn't reach the last W_max, so that
/// the flow gives way to newer ones (fast convergence: RFC 9438, section 4.7).
pub(crate) fn converge(w_max: u64, window: u64) -> u64
    ensures { result ≡ converged w_max window }
{
    if window < w_max {
        window.saturating_mul(CONVERGENCE) / CONVERGENCE_UNIT
    } else {
        window
    }
}

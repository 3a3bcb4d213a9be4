//! Laws: what RFC 9438 asks of a sender, of an agent of every flow after all that it may be told.
ghost use Rattle.std.specs.Prelude.{◌≡◌, ◌<◌, ◌≤◌, ℕ, List};
ghost use Rattle.ccp_base.specs.declared.look.Role.{Role};
ghost use Rattle.ccp_base.specs.declared.exchange.Told.{Told};
ghost use Rattle.cubic_agent.specs.Cubic.{cubic};
ghost use Rattle.cubic_agent.specs.CubicLaws.{IsSegment, IsBounded, SetsWindow, Grows, ShowsLoss, Decreases, Restarts, IsCalm, IsSomething, IsOnce, Always, AlwaysHeard, cubic_told};

/// The window of an agent, and that of each reply, has from one segment to 4,096 segments; W_est has at most 4,096. The
/// threshold, and each cap, has at least 2.
pub fn windows_law()
    ensures agent { (mss : ℕ) (ss ca : Role) (tolds : List Told) → IsSegment mss
        → IsBounded mss (cubic_told mss ss ca tolds) }
    ensures replies { (mss : ℕ) (ss ca : Role) (tolds : List Told) (next : Told) → IsSegment mss
        → SetsWindow mss (cubic (cubic_told mss ss ca tolds) next).1 }
{}

/// An update never lowers the window. The window grows to at most half as much again, or to W_est, which grows by at most
/// one segment if at most a window was acknowledged (RFC 9438, sections 4.2 to 4.5).
pub fn growth_law()
    ensures { Always Grows }
{}

/// A report of a loss or a mark, without a timeout, is answered by nothing, or by a change to congestion avoidance whose
/// window and cap are 0.7 of the window, and at least 2 segments (RFC 9438, section 4.6). In the agent's epoch it is
/// answered from the time `calm` on.
pub fn loss_law()
    ensures cut { Always (λ s r reply. ShowsLoss r → Decreases s r reply) }
    ensures answered { AlwaysHeard (λ s r reply. ShowsLoss r → s.calm ≤ r.now → IsSomething reply) }
{}

/// A report of a timeout is answered by nothing, or by a change to slow start from one segment, whose cap is 0.7 of the
/// window, and at least 2 segments (RFC 9438, section 4.8). In the agent's epoch it is always answered.
pub fn timeout_law()
    ensures restart { Always (λ s r reply. 0 < r.timeout → Restarts s r reply) }
    ensures answered { AlwaysHeard (λ s r reply. 0 < r.timeout → IsSomething reply) }
{}

/// A report without a timeout is answered by a change only at the end of the loss event that was answered last, or later.
/// So no report is answered by a change within one round-trip time of a loss or a mark that was answered, unless a
/// timeout was reported meanwhile.
pub fn calm_law()
    ensures calm { Always (λ s r reply. r.timeout ≡ 0 → IsCalm s r reply) }
    ensures once { (mss : ℕ) (ss ca : Role) (tolds : List Told) → IsSegment mss → IsOnce (cubic_told mss ss ca tolds) }
{}

//! The state of a CUBIC agent, and its replies to reports and fault notices (RFC 9438, section 4).
ghost use Rattle.std.specs.Prelude.{◌≡◌, ◌≤◌};
ghost use Rattle.ccp_base.specs.Limits.{most_segment_bytes};

use crate::curve::{time_to_maximum, w_cubic};
use crate::window::{SEGMENT, WINDOW_MOST, bytes, clamped_window, converge, decrease};
use ccp_base::{Course, Measurement, Phase, Reply, Role, Told, initial_segments};
use int_roots::muldiv;
use std::marker::Model;

/// The RFC's alpha, `3 * (1 - beta) / (1 + beta)`, is 9/17 of a segment: `ALPHA / ALPHA_UNIT` thousandths of one.
const ALPHA: u64 = 9000;

const ALPHA_UNIT: u64 = 17;

/// Microseconds in a millisecond.
const MILLISECOND: u64 = 1000;

/// The window, and what determines its growth in congestion avoidance. Windows are in thousandths of a
/// segment.
#[derive(Clone, Copy, PartialEq, Eq)]
pub struct Growth {
    /// The RFC's cwnd.
    pub window: u64,
    /// W_max, where the curve is flat: the window before the last loss event, or 0.85 of it if it had shrunk since the
    /// one before that (fast convergence); or the window at which congestion avoidance began after slow start,
    /// if that came later.
    pub w_max: u64,
    /// The RFC's cwnd_prior: the window before the last loss event or timeout.
    pub w_prior: u64,
    /// W_est: the window that Reno would have.
    pub w_est: u64,
    /// K: the time from the epoch's start to W_max, in milliseconds.
    pub k: u64,
    /// The RFC's epoch_start: when congestion avoidance began, in microseconds.
    pub start: u64,
}

/// The state of a CUBIC agent. Windows are in thousandths of a segment if nothing else is said.
#[derive(Clone, Copy, PartialEq, Eq)]
pub struct Cubic {
    /// The segment's size, in bytes.
    mss: u32,
    course: Course,
    growth: Growth,
    /// The slow start threshold, in bytes; 2^64-1 before the first loss.
    ssthresh: u64,
    /// A loss or a mark before this time, in microseconds, belongs to the loss event that was answered last.
    calm: u64,
}

impl Model for Cubic {
    ghost use Rattle.cubic_agent.specs.Cubic.{CubicState, IsInRange, growth_of, cubic_state};

    ghost Value = { CubicState };

    ghost view = { λ c. cubic_state c.mss c.course c.growth c.ssthresh c.calm };

    ghost invariant = { λ c. IsInRange c.mss c.growth };

    ghost inverse = { λ s. record {
      mss = s.mss;
      course = s.course;
      growth = growth_of s;
      ssthresh = s.ssthresh;
      calm = s.calm;
    } };
}

impl Cubic {
    ghost use Rattle.cubic_agent.specs.Cubic.{cubic, first_cubic, growth_of, window_told, after_timeout, after_loss, in_slow_start, in_avoidance, after_measurement, after_fault, acked_thousandths, estimate_of, target_of, grown};
    ghost use Rattle.cubic_agent.specs.Window.{most_window};
    ghost use Rattle.ccp_base.specs.Course.{opening_of};

    /// An agent in its initial state, of a flow whose segments have `mss` bytes, with its programs of slow
    /// start and of congestion avoidance.
    pub fn new(mss: u32, ss: Role, ca: Role) -> Self
        requires some { 1 ≤ mss }
        requires most { mss ≤ most_segment_bytes }
        ensures { result ≡ first_cubic mss ss ca }
    {
        Cubic {
            mss,
            course: Course::new(ss, ca),
            growth: Growth {
                window: initial_segments(mss).saturating_mul(SEGMENT),
                w_max: 0,
                w_prior: 0,
                w_est: 0,
                k: 0,
                start: 0,
            },
            ssthresh: u64::MAX,
            calm: 0,
        }
    }

    /// The segment's size, in bytes.
    pub fn mss(&self) -> u32
        ensures { result ≡ self.now.mss }
    {
        self.mss
    }

    /// The agent's programs, and how far it went with them.
    pub fn course(&self) -> Course
        ensures { result ≡ self.now.course }
    {
        self.course
    }

    /// The window, and what determines its growth.
    pub fn growth(&self) -> Growth
        ensures { result ≡ growth_of self.now }
    {
        self.growth
    }

    /// The slow start threshold, in bytes; 2^64-1 before the first loss.
    pub fn ssthresh(&self) -> u64
        ensures { result ≡ self.now.ssthresh }
    {
        self.ssthresh
    }

    /// Until when a loss or a mark belongs to the loss event that was answered last, in microseconds.
    pub fn calm(&self) -> u64
        ensures { result ≡ self.now.calm }
    {
        self.calm
    }

    /// The change that starts a flow: slow start from the initial window, without a cap.
    pub fn begin(&self) -> Reply
        ensures { result ≡ opening_of self.now.mss self.now.course }
    {
        self.course.opening(self.mss)
    }

    /// Replies to a report or a fault notice. One of another epoch than the agent's changes nothing.
    pub fn reply(&mut self, told: &Told) -> Reply
        ensures turn { (self.new, result) ≡ cubic self.old told.now }

        // Its programs stay the same.
        ensures ss { self.new.course.ss ≡ self.old.course.ss }
        ensures ca { self.new.course.ca ≡ self.old.course.ca }
    {
        self.take_turn(told)
    }

    /// The agent after a report or a fault notice, and its reply.
    fn take_turn(&mut self, told: &Told) -> Reply
        ensures { (self.new, result) ≡ cubic self.old told.now }
    {
        if told.epoch() != self.course.epoch {
            return Reply::Nothing;
        }
        match told {
            Told::Report(report) => {
                let role = self.course.role(self.course.mode);
                let measurement = Measurement::new(&role.look, report);
                self.take_window(measurement);
                self.on_measurement(measurement)
            }
            Told::Fault(_) => self.on_fault(),
        }
    }

    /// In slow start the datapath moves the window, and the agent takes it from the report.
    fn take_window(&mut self, measurement: Measurement)
        ensures { self.new ≡ window_told self.old.course.mode measurement self.old }
    {
        match self.course.mode {
            Phase::SlowStart => {
                self.growth.window = clamped_window(muldiv(
                    measurement.cwnd,
                    SEGMENT,
                    u64::from(self.mss),
                ));
            }
            Phase::Avoidance => {}
        }
    }

    /// Treats a report by the first case that holds.
    fn on_measurement(&mut self, measurement: Measurement) -> Reply
        ensures { (self.new, result) ≡ after_measurement measurement self.old }
    {
        if measurement.timeout > 0 {
            return self.on_timeout();
        }
        if measurement.loss > 0 || measurement.ecn > 0 {
            return self.on_loss(measurement);
        }
        match self.course.mode {
            Phase::SlowStart => self.in_slow_start(measurement),
            Phase::Avoidance => self.in_avoidance(measurement),
        }
    }

    /// The retransmission timer ran out: slow start again, from one segment (RFC 9438, section 4.8).
    fn on_timeout(&mut self) -> Reply
        ensures { (self.new, result) ≡ after_timeout self.old }
    {
        let ssthresh = bytes(self.mss, decrease(self.growth.window));
        let least = bytes(self.mss, SEGMENT);
        self.growth.w_prior = self.growth.window;
        self.ssthresh = ssthresh;
        self.growth.window = SEGMENT;
        self.calm = 0;
        self.course.change(Phase::SlowStart, least, ssthresh)
    }

    /// Packets were lost or marked: the window decreases, once in a round-trip time, and a new epoch of
    /// congestion avoidance starts (RFC 9438, sections 4.6 and 4.7).
    fn on_loss(&mut self, measurement: Measurement) -> Reply
        ensures { (self.new, result) ≡ after_loss measurement self.old }
    {
        if measurement.now < self.calm {
            return Reply::Nothing;
        }
        let w_max = converge(self.growth.w_max, self.growth.window);
        let window = decrease(self.growth.window);
        let ssthresh = bytes(self.mss, window);
        self.growth = Growth {
            window,
            w_max,
            w_prior: self.growth.window,
            w_est: window,
            k: time_to_maximum(w_max, window),
            start: measurement.now,
        };
        self.ssthresh = ssthresh;
        self.calm = measurement.now.saturating_add(measurement.rtt);
        self.course.change(Phase::Avoidance, ssthresh, ssthresh)
    }

    /// Slow start ends if the window has reached the threshold; the curve then starts at its middle
    /// (RFC 9438, section 4.8).
    fn in_slow_start(&mut self, measurement: Measurement) -> Reply
        ensures { (self.new, result) ≡ in_slow_start measurement self.old }
    {
        if measurement.cwnd < self.ssthresh {
            return Reply::Nothing;
        }
        let cwnd = bytes(self.mss, self.growth.window);
        self.growth.w_max = self.growth.window;
        self.growth.w_est = self.growth.window;
        self.growth.k = 0;
        self.growth.start = measurement.now;
        self.course.change(Phase::Avoidance, cwnd, self.ssthresh)
    }

    /// Congestion avoidance: W_est first, then the window.
    fn in_avoidance(&mut self, measurement: Measurement) -> Reply
        ensures { (self.new, result) ≡ in_avoidance measurement self.old }
    {
        if measurement.acked == 0 {
            return Reply::Nothing;
        }
        let acked = self.acked_thousandths(measurement);
        let t = measurement.now.saturating_sub(self.growth.start) / MILLISECOND;
        let rtt = measurement.rtt / MILLISECOND;
        self.growth.w_est = self.estimate(acked);
        let window = self.grow_window(acked, t, rtt);
        self.growth.window = window;
        Reply::Update(bytes(self.mss, window))
    }

    /// What was acknowledged, in thousandths of a segment, at most the greatest window.
    fn acked_thousandths(&self, measurement: Measurement) -> u64
        ensures { result ≡ acked_thousandths self.now.mss measurement }
    {
        muldiv(measurement.acked, SEGMENT, u64::from(self.mss)).min(WINDOW_MOST)
    }

    /// W_est after these acknowledgements: it grows by alpha segments in a round-trip time until it has reached
    /// cwnd_prior, and by one segment from then on (RFC 9438, section 4.3).
    fn estimate(&self, acked: u64) -> u64
        ensures { result ≡ estimate_of acked self.now }
    {
        let growth = if self.growth.w_est < self.growth.w_prior {
            ALPHA.saturating_mul(acked) / ALPHA_UNIT.saturating_mul(self.growth.window)
        } else {
            SEGMENT.saturating_mul(acked) / self.growth.window
        };
        self.growth.w_est.saturating_add(growth).min(WINDOW_MOST)
    }

    /// The window that the curve asks for, `t` milliseconds into the epoch, from the window to half as much
    /// again. The RFC's target is that of one round-trip time from now, which `t` has in it (RFC 9438, section 4.2).
    fn target(&self, t: u64) -> u64
        ensures { result ≡ target_of t self.now }
    {
        let most = self.growth.window.saturating_add(self.growth.window / 2);
        w_cubic(self.growth.w_max, self.growth.k, t)
            .min(most)
            .max(self.growth.window)
    }

    /// The window after these acknowledgements, `t` milliseconds into the epoch, with a round-trip time in
    /// milliseconds.
    fn grow_window(&self, acked: u64, t: u64, rtt: u64) -> u64
        ensures value { result ≡ grown acked t rtt self.now }
        ensures least { 1000 ≤ result }
        ensures most { result ≤ most_window }
    {
        // the Reno-friendly region (RFC 9438, section 4.3)
        if w_cubic(self.growth.w_max, self.growth.k, t) < self.growth.w_est {
            return self.growth.window.max(self.growth.w_est);
        }
        // the concave and the convex region (RFC 9438, sections 4.4 and 4.5)
        let gap = self
            .target(t.saturating_add(rtt))
            .saturating_sub(self.growth.window);
        let growth = gap.min(gap.saturating_mul(acked) / self.growth.window);
        clamped_window(self.growth.window.saturating_add(growth))
    }

    /// The program that a fault stopped is started again with the phase and the window of the agent.
    fn on_fault(&mut self) -> Reply
        ensures { (self.new, result) ≡ after_fault self.old }
    {
        let mode = self.course.mode;
        let cwnd = bytes(self.mss, self.growth.window);
        self.course.change(mode, cwnd, self.ssthresh)
    }
}

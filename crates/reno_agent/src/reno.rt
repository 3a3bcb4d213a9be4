//! The state of a Reno agent, and its replies to reports and fault notices (RFC 5681, section 3).
ghost use Rattle.std.specs.Prelude.{◌≡◌, ◌≤◌};
ghost use Rattle.ccp_base.specs.Limits.{most_segment_bytes};

use ccp_base::{Course, Measurement, Phase, Reply, Role, Told, initial_segments};
use int_roots::muldiv;
use std::marker::Model;

/// The most segments in a window, and in a threshold after a loss.
const WINDOW_SEGMENTS: u64 = 4096;

/// The fewest segments in a threshold after a loss (RFC 5681, equation 4).
const THRESHOLD_SEGMENTS: u64 = 2;

/// The state of a Reno agent.
#[derive(Clone, Copy, PartialEq, Eq)]
pub struct Reno {
    /// The segment's size, in bytes.
    mss: u32,
    course: Course,
    /// The congestion window, in bytes.
    window: u64,
    /// The slow start threshold, in bytes; 2^64-1 before the first loss.
    ssthresh: u64,
    /// A loss or a mark before this time, in microseconds, belongs to the loss event that was answered last.
    calm: u64,
}

impl Model for Reno {
    ghost use Rattle.reno_agent.specs.Reno.{RenoState, IsInRange};

    ghost Value = { RenoState };

    ghost view = { λ r. record {
      mss = r.mss;
      course = r.course;
      window = r.window;
      ssthresh = r.ssthresh;
      calm = r.calm;
    } };

    ghost invariant = { λ r. IsInRange r.mss r.window };

    ghost inverse = { λ s. record {
      mss = s.mss;
      course = s.course;
      window = s.window;
      ssthresh = s.ssthresh;
      calm = s.calm;
    } };
}

impl Reno {
    ghost use Rattle.reno_agent.specs.Reno.{reno, first_reno, clamped_window, halved_flight, window_told, after_timeout, after_loss, in_slow_start, in_avoidance, after_measurement, after_fault};
    ghost use Rattle.ccp_base.specs.Course.{opening_of};
    ghost use Rattle.ccp_base.specs.Measurement.{measurement_of};

    /// An agent in its initial state, of a flow whose segments have `mss` bytes, with its programs of slow
    /// start and of congestion avoidance.
    pub fn new(mss: u32, ss: Role, ca: Role) -> Self
        requires some { 1 ≤ mss }
        requires most { mss ≤ most_segment_bytes }
        ensures { result ≡ first_reno mss ss ca }
    {
        Reno {
            mss,
            course: Course::new(ss, ca),
            window: initial_segments(mss).saturating_mul(u64::from(mss)),
            ssthresh: u64::MAX,
            calm: 0,
        }
    }

    /// The segment's size, in bytes.
    pub fn mss(&self) -> u32
        ensures { result ≡ self.now.mss }
    {
        self.mss
    }

    /// The agent's programs, and how far it went with them.
    pub fn course(&self) -> Course
        ensures { result ≡ self.now.course }
    {
        self.course
    }

    /// The congestion window, in bytes.
    pub fn window(&self) -> u64
        ensures { result ≡ self.now.window }
    {
        self.window
    }

    /// The slow start threshold, in bytes; 2^64-1 before the first loss.
    pub fn ssthresh(&self) -> u64
        ensures { result ≡ self.now.ssthresh }
    {
        self.ssthresh
    }

    /// Until when a loss or a mark belongs to the loss event that was answered last, in microseconds.
    pub fn calm(&self) -> u64
        ensures { result ≡ self.now.calm }
    {
        self.calm
    }

    /// The change that starts a flow: slow start from the initial window, without a cap.
    pub fn begin(&self) -> Reply
        ensures { result ≡ opening_of self.now.mss self.now.course }
    {
        self.course.opening(self.mss)
    }

    /// Replies to a report or a fault notice. One of another epoch than the agent's changes nothing.
    pub fn reply(&mut self, told: &Told) -> Reply
        ensures turn { (self.new, result) ≡ reno self.old told.now }

        // Its programs stay the same.
        ensures ss { self.new.course.ss ≡ self.old.course.ss }
        ensures ca { self.new.course.ca ≡ self.old.course.ca }
    {
        self.take_turn(told)
    }

    /// The agent after a report or a fault notice, and its reply.
    fn take_turn(&mut self, told: &Told) -> Reply
        ensures { (self.new, result) ≡ reno self.old told.now }
    {
        if told.epoch() != self.course.epoch {
            return Reply::Nothing;
        }
        match told {
            Told::Report(report) => {
                let role = self.course.role(self.course.mode);
                let measurement = Measurement::new(&role.look, report);
                self.take_window(measurement);
                self.on_measurement(measurement)
            }
            Told::Fault(_) => self.on_fault(),
        }
    }

    /// A window in bytes, held from one segment to 4,096 segments.
    fn clamped_window(&self, window: u64) -> u64
        ensures value { result ≡ clamped_window self.now.mss window }
    {
        let mss = u64::from(self.mss);
        window.min(WINDOW_SEGMENTS.saturating_mul(mss)).max(mss)
    }

    /// The threshold after a loss, in bytes: half of the flight before the losses were noticed, within bounds
    /// (RFC 5681, equation 4).
    fn cut(&self, measurement: Measurement) -> u64
        ensures { result ≡ halved_flight self.now.mss measurement }
    {
        let mss = u64::from(self.mss);
        let flight = measurement
            .inflight
            .saturating_add(measurement.loss.saturating_mul(mss));
        let half = (flight / 2).max(THRESHOLD_SEGMENTS.saturating_mul(mss));
        half.min(WINDOW_SEGMENTS.saturating_mul(mss))
    }

    /// In slow start the datapath moves the window, and the agent takes it from the report.
    fn take_window(&mut self, measurement: Measurement)
        ensures { self.new ≡ window_told self.old.course.mode measurement self.old }
    {
        match self.course.mode {
            Phase::SlowStart => self.window = self.clamped_window(measurement.cwnd),
            Phase::Avoidance => {}
        }
    }

    /// Treats a report by the first case that holds.
    fn on_measurement(&mut self, measurement: Measurement) -> Reply
        ensures { (self.new, result) ≡ after_measurement measurement self.old }
    {
        if measurement.timeout > 0 {
            return self.on_timeout(measurement);
        }
        if measurement.loss > 0 || measurement.ecn > 0 {
            return self.on_loss(measurement);
        }
        match self.course.mode {
            Phase::SlowStart => self.in_slow_start(measurement),
            Phase::Avoidance => self.in_avoidance(measurement),
        }
    }

    /// The retransmission timer ran out: slow start again, from one segment (RFC 5681, section 3.1).
    fn on_timeout(&mut self, measurement: Measurement) -> Reply
        ensures { (self.new, result) ≡ after_timeout measurement self.old }
    {
        self.ssthresh = self.cut(measurement);
        self.window = u64::from(self.mss);
        self.calm = 0;
        self.course
            .change(Phase::SlowStart, self.window, self.ssthresh)
    }

    /// Packets were lost or marked: the window falls to the threshold, once in a round-trip time (RFC 5681,
    /// section 3.2).
    fn on_loss(&mut self, measurement: Measurement) -> Reply
        ensures { (self.new, result) ≡ after_loss measurement self.old }
    {
        if measurement.now < self.calm {
            return Reply::Nothing;
        }
        self.ssthresh = self.cut(measurement);
        self.window = self.ssthresh;
        self.calm = measurement.now.saturating_add(measurement.rtt);
        self.course
            .change(Phase::Avoidance, self.window, self.ssthresh)
    }

    /// Slow start ends if the window has reached the threshold (RFC 5681, section 3.1).
    fn in_slow_start(&mut self, measurement: Measurement) -> Reply
        ensures { (self.new, result) ≡ in_slow_start measurement self.old }
    {
        if measurement.cwnd < self.ssthresh {
            return Reply::Nothing;
        }
        self.course
            .change(Phase::Avoidance, self.window, self.ssthresh)
    }

    /// Congestion avoidance: the window grows by about one segment in a round-trip time (RFC 5681, equation 3).
    fn in_avoidance(&mut self, measurement: Measurement) -> Reply
        ensures { (self.new, result) ≡ in_avoidance measurement self.old }
    {
        if measurement.acked == 0 {
            return Reply::Nothing;
        }
        let growth = muldiv(u64::from(self.mss), measurement.acked, self.window).max(1);
        self.window = self.clamped_window(self.window.saturating_add(growth));
        Reply::Update(self.window)
    }

    /// The program that a fault stopped is started again with the phase and the window of the agent.
    fn on_fault(&mut self) -> Reply
        ensures { (self.new, result) ≡ after_fault self.old }
    {
        let mode = self.course.mode;
        self.course.change(mode, self.window, self.ssthresh)
    }
}

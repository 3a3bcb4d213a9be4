//! The texts of the built-in programs: Reno's two, and CUBIC's congestion avoidance.
ghost use Rattle.std.specs.Prelude.{◌≡◌, ◌<◌, length};
ghost use Rattle.portus_build.specs.Builtins.{builtins, builtin_text};

/// The text of a built-in program, by the line of its control variables, its own blocks, and the block that reports.
/// On each acknowledgement the fields are brought up to date; a timeout, a loss or a mark is reported at once.
macro_rules! program {
    ($controls:literal, $blocks:literal, $report:literal) => {
        concat!(
            "(def (Report (volatile acked 0) (volatile sacked 0) (volatile loss 0)
  (volatile timeout false) (rtt 0) (inflight 0) (volatile ecn 0))
",
            $controls,
            "(when true
  (:= Report.acked (+ Report.acked Ack.bytes_acked))
  (:= Report.sacked (+ Report.sacked Ack.packets_misordered))
  (:= Report.loss (+ Report.loss Ack.lost_pkts_sample))
  (:= Report.timeout (|| Report.timeout Flow.was_timeout))
  (:= Report.rtt Flow.rtt_sample_us)
  (:= Report.inflight Flow.bytes_in_flight)
  (:= Report.ecn (+ Report.ecn Ack.ecn_packets))
  (fallthrough))
(when (|| Report.timeout (> (+ Report.loss Report.ecn) 0)) (report) (:= Micros 0))
",
            $blocks,
            $report
        )
    };
}

/// Reno's slow start: the datapath moves the window, up to the cap.
const RENO_SS: &str = program!(
    "  (cap +infinity) (mss 1))\n",
    "(when (< Cwnd cap)
  (:= Cwnd (min cap (+ Cwnd (min Ack.bytes_acked mss))))
  (fallthrough))
",
    "(when (> Micros Report.rtt) (report) (:= Micros 0))\n"
);

/// Reno's congestion avoidance: the agent alone moves the window.
const RENO_CA: &str = program!(
    "  )\n",
    "",
    "(when (> Micros Report.rtt) (report) (:= Micros 0))\n"
);

/// CUBIC's congestion avoidance: the agent moves the window, and gets two reports in a round-trip time.
const CUBIC_CA: &str = program!(
    "  )\n",
    "",
    "(when (> Micros (/ Report.rtt 2)) (report) (:= Micros 0))\n"
);

/// The built-in programs, in the order of their numbers: `reno.ss`, `reno.ca` and `cubic.ca`.
const BUILT_INS: [&str; 3] = [RENO_SS, RENO_CA, CUBIC_CA];

/// The text of a built-in program: 0 is `reno.ss`, 1 is `reno.ca` and 2 is `cubic.ca`.
pub fn builtin(number: u32) -> &'static [u8]
    requires { number < length builtins }
    ensures { result.now ≡ builtin_text number }
{
    BUILT_INS[number as usize].as_bytes()
}

//! That four datapaths serve six flows of a live run side by side, and with four installers those of a rollout.
use crate::held_workers::{Held, shows_held};
use crate::hold_gate::{ALL, Waiting};
use ccp_base::Point;
use std::test::Fail;

/// Six flows with two acknowledgements each, which show a loss in a report. Each flow has its own program.
const SIX_LOSING: &[u8] =
    b"{\"version\":1,\"programs\":{\"p0\":\"(def (Report (volatile loss 0) (n 0))) (when true (:= Report.loss 1) (report))\",\"p1\":\"(def (Report (volatile loss 0) (n 1))) (when true (:= Report.loss 1) (report))\",\"p2\":\"(def (Report (volatile loss 0) (n 2))) (when true (:= Report.loss 1) (report))\",\"p3\":\"(def (Report (volatile loss 0) (n 3))) (when true (:= Report.loss 1) (report))\",\"p4\":\"(def (Report (volatile loss 0) (n 4))) (when true (:= Report.loss 1) (report))\",\"p5\":\"(def (Report (volatile loss 0) (n 5))) (when true (:= Report.loss 1) (report))\"},\"traces\":{\"t\":\"10\\n\"},\"cases\":[{\"name\":\"a\",\"trace\":\"t\",\"mss\":1448,\"queue\":10,\"delay_us\":20000,\"timeout_us\":1000000,\"agent\":\"reno\",\"acks\":2,\"ss\":\"p0\",\"ca\":\"p0\"},{\"name\":\"b\",\"trace\":\"t\",\"mss\":1448,\"queue\":10,\"delay_us\":20000,\"timeout_us\":1000000,\"agent\":\"cubic\",\"acks\":2,\"ss\":\"p1\",\"ca\":\"p1\"},{\"name\":\"c\",\"trace\":\"t\",\"mss\":1448,\"queue\":10,\"delay_us\":20000,\"timeout_us\":1000000,\"agent\":\"reno\",\"acks\":2,\"ss\":\"p2\",\"ca\":\"p2\"},{\"name\":\"d\",\"trace\":\"t\",\"mss\":1448,\"queue\":10,\"delay_us\":20000,\"timeout_us\":1000000,\"agent\":\"cubic\",\"acks\":2,\"ss\":\"p3\",\"ca\":\"p3\"},{\"name\":\"e\",\"trace\":\"t\",\"mss\":1448,\"queue\":10,\"delay_us\":20000,\"timeout_us\":1000000,\"agent\":\"reno\",\"acks\":2,\"ss\":\"p4\",\"ca\":\"p4\"},{\"name\":\"f\",\"trace\":\"t\",\"mss\":1448,\"queue\":10,\"delay_us\":20000,\"timeout_us\":1000000,\"agent\":\"cubic\",\"acks\":2,\"ss\":\"p5\",\"ca\":\"p5\"}]}";

/// What they are if each report is answered before the next acknowledgement.
const SIX_BOOKS: &[u8] =
    b"flow 0 case=a agent=reno\nepoch 0 program=3 at=0 cwnd=4344\nepoch 1 program=3 at=1 cwnd=2896\nepoch 2 program=3 at=2 cwnd=2896\nticket 0 report program=3 epoch=0 span=0..1 taken=1 answered=1 reply=change:3:2896:2896 now=30000 cwnd=4344 rate=0 loss=1 n=0\nticket 1 report program=3 epoch=1 span=1..2 taken=2 answered=2 reply=change:3:2896:2896 now=40000 cwnd=2896 rate=0 loss=1 n=0\nend acks=2 reports=2 held=0 faults=0 tail=2..2 stopped=no cwnd=2896 rate=0 loss=0 n=0\nflow 1 case=b agent=cubic\nepoch 0 program=4 at=0 cwnd=4344\nepoch 1 program=4 at=1 cwnd=3040\nepoch 2 program=4 at=2 cwnd=2896\nticket 0 report program=4 epoch=0 span=0..1 taken=1 answered=1 reply=change:4:3040:3040 now=30000 cwnd=4344 rate=0 loss=1 n=1\nticket 1 report program=4 epoch=1 span=1..2 taken=2 answered=2 reply=change:4:2896:2896 now=40000 cwnd=3040 rate=0 loss=1 n=1\nend acks=2 reports=2 held=0 faults=0 tail=2..2 stopped=no cwnd=2896 rate=0 loss=0 n=1\nflow 2 case=c agent=reno\nepoch 0 program=5 at=0 cwnd=4344\nepoch 1 program=5 at=1 cwnd=2896\nepoch 2 program=5 at=2 cwnd=2896\nticket 0 report program=5 epoch=0 span=0..1 taken=1 answered=1 reply=change:5:2896:2896 now=30000 cwnd=4344 rate=0 loss=1 n=2\nticket 1 report program=5 epoch=1 span=1..2 taken=2 answered=2 reply=change:5:2896:2896 now=40000 cwnd=2896 rate=0 loss=1 n=2\nend acks=2 reports=2 held=0 faults=0 tail=2..2 stopped=no cwnd=2896 rate=0 loss=0 n=2\nflow 3 case=d agent=cubic\nepoch 0 program=6 at=0 cwnd=4344\nepoch 1 program=6 at=1 cwnd=3040\nepoch 2 program=6 at=2 cwnd=2896\nticket 0 report program=6 epoch=0 span=0..1 taken=1 answered=1 reply=change:6:3040:3040 now=30000 cwnd=4344 rate=0 loss=1 n=3\nticket 1 report program=6 epoch=1 span=1..2 taken=2 answered=2 reply=change:6:2896:2896 now=40000 cwnd=3040 rate=0 loss=1 n=3\nend acks=2 reports=2 held=0 faults=0 tail=2..2 stopped=no cwnd=2896 rate=0 loss=0 n=3\nflow 4 case=e agent=reno\nepoch 0 program=7 at=0 cwnd=4344\nepoch 1 program=7 at=1 cwnd=2896\nepoch 2 program=7 at=2 cwnd=2896\nticket 0 report program=7 epoch=0 span=0..1 taken=1 answered=1 reply=change:7:2896:2896 now=30000 cwnd=4344 rate=0 loss=1 n=4\nticket 1 report program=7 epoch=1 span=1..2 taken=2 answered=2 reply=change:7:2896:2896 now=40000 cwnd=2896 rate=0 loss=1 n=4\nend acks=2 reports=2 held=0 faults=0 tail=2..2 stopped=no cwnd=2896 rate=0 loss=0 n=4\nflow 5 case=f agent=cubic\nepoch 0 program=8 at=0 cwnd=4344\nepoch 1 program=8 at=1 cwnd=3040\nepoch 2 program=8 at=2 cwnd=2896\nticket 0 report program=8 epoch=0 span=0..1 taken=1 answered=1 reply=change:8:3040:3040 now=30000 cwnd=4344 rate=0 loss=1 n=5\nticket 1 report program=8 epoch=1 span=1..2 taken=2 answered=2 reply=change:8:2896:2896 now=40000 cwnd=3040 rate=0 loss=1 n=5\nend acks=2 reports=2 held=0 faults=0 tail=2..2 stopped=no cwnd=2896 rate=0 loss=0 n=5\n";

/// Six flows with two acknowledgements and two steps each. No two flows have the same first step, and no two the same
/// second one.
const SIX_STEPS: &[u8] =
    b"{\"version\":1,\"programs\":{\"p0\":\"(def (Report (n 0))) (when true (report))\",\"p1\":\"(def (Report (n 1))) (when true (report))\",\"p2\":\"(def (Report (n 2))) (when true (report))\",\"p3\":\"(def (Report (n 3))) (when true (report))\",\"p4\":\"(def (Report (n 4))) (when true (report))\",\"p5\":\"(def (Report (n 5))) (when true (report))\"},\"traces\":{\"t\":\"10\\n\"},\"cases\":[{\"name\":\"a\",\"trace\":\"t\",\"mss\":1448,\"queue\":10,\"delay_us\":20000,\"timeout_us\":1000000,\"acks\":2,\"cwnd\":4344,\"steps\":[\"p0\",\"p5\"]},{\"name\":\"b\",\"trace\":\"t\",\"mss\":1448,\"queue\":10,\"delay_us\":20000,\"timeout_us\":1000000,\"acks\":2,\"cwnd\":4344,\"steps\":[\"p1\",\"p4\"]},{\"name\":\"c\",\"trace\":\"t\",\"mss\":1448,\"queue\":10,\"delay_us\":20000,\"timeout_us\":1000000,\"acks\":2,\"cwnd\":4344,\"steps\":[\"p2\",\"p3\"]},{\"name\":\"d\",\"trace\":\"t\",\"mss\":1448,\"queue\":10,\"delay_us\":20000,\"timeout_us\":1000000,\"acks\":2,\"cwnd\":4344,\"steps\":[\"p3\",\"p2\"]},{\"name\":\"e\",\"trace\":\"t\",\"mss\":1448,\"queue\":10,\"delay_us\":20000,\"timeout_us\":1000000,\"acks\":2,\"cwnd\":4344,\"steps\":[\"p4\",\"p1\"]},{\"name\":\"f\",\"trace\":\"t\",\"mss\":1448,\"queue\":10,\"delay_us\":20000,\"timeout_us\":1000000,\"acks\":2,\"cwnd\":4344,\"steps\":[\"p5\",\"p0\"]}]}";

/// What they are if each step begins before an acknowledgement.
const SIX_ROLLOUTS: &[u8] =
    b"flow 0 case=a\nstep 0 installed at=0\nstep 1 installed at=1\nepoch 0 step=0 at=0 cwnd=4344\nepoch 1 step=1 at=1 cwnd=4344\nreport program=0 epoch=0 span=0..1 now=30000 cwnd=4344 rate=0 n=0\nreport program=1 epoch=1 span=1..2 now=40000 cwnd=4344 rate=0 n=5\nend acks=2 reports=2 tail=2..2 stopped=no cwnd=4344 rate=0 n=5\nflow 1 case=b\nstep 0 installed at=0\nstep 1 installed at=1\nepoch 0 step=0 at=0 cwnd=4344\nepoch 1 step=1 at=1 cwnd=4344\nreport program=0 epoch=0 span=0..1 now=30000 cwnd=4344 rate=0 n=1\nreport program=1 epoch=1 span=1..2 now=40000 cwnd=4344 rate=0 n=4\nend acks=2 reports=2 tail=2..2 stopped=no cwnd=4344 rate=0 n=4\nflow 2 case=c\nstep 0 installed at=0\nstep 1 installed at=1\nepoch 0 step=0 at=0 cwnd=4344\nepoch 1 step=1 at=1 cwnd=4344\nreport program=0 epoch=0 span=0..1 now=30000 cwnd=4344 rate=0 n=2\nreport program=1 epoch=1 span=1..2 now=40000 cwnd=4344 rate=0 n=3\nend acks=2 reports=2 tail=2..2 stopped=no cwnd=4344 rate=0 n=3\nflow 3 case=d\nstep 0 installed at=0\nstep 1 installed at=1\nepoch 0 step=0 at=0 cwnd=4344\nepoch 1 step=1 at=1 cwnd=4344\nreport program=0 epoch=0 span=0..1 now=30000 cwnd=4344 rate=0 n=3\nreport program=1 epoch=1 span=1..2 now=40000 cwnd=4344 rate=0 n=2\nend acks=2 reports=2 tail=2..2 stopped=no cwnd=4344 rate=0 n=2\nflow 4 case=e\nstep 0 installed at=0\nstep 1 installed at=1\nepoch 0 step=0 at=0 cwnd=4344\nepoch 1 step=1 at=1 cwnd=4344\nreport program=0 epoch=0 span=0..1 now=30000 cwnd=4344 rate=0 n=4\nreport program=1 epoch=1 span=1..2 now=40000 cwnd=4344 rate=0 n=1\nend acks=2 reports=2 tail=2..2 stopped=no cwnd=4344 rate=0 n=1\nflow 5 case=f\nstep 0 installed at=0\nstep 1 installed at=1\nepoch 0 step=0 at=0 cwnd=4344\nepoch 1 step=1 at=1 cwnd=4344\nreport program=0 epoch=0 span=0..1 now=30000 cwnd=4344 rate=0 n=5\nreport program=1 epoch=1 span=1..2 now=40000 cwnd=4344 rate=0 n=0\nend acks=2 reports=2 tail=2..2 stopped=no cwnd=4344 rate=0 n=0\n";

/// Each of four datapaths is held in its first acknowledgement, with its flow's lock, until the next one is in its own.
/// Each is held before the second acknowledgement of its first flow until the first report of each of six flows has been
/// answered, by whichever agents: the channel may wake only one of them for several nudges, so none waits for another.
const FOUR_DATAPATHS: &[Waiting] = &[
    ((0, Point::InAck, 1, Some(0)), (1, Point::InAck, 1, Some(1))),
    ((1, Point::InAck, 1, Some(1)), (2, Point::InAck, 1, Some(2))),
    ((2, Point::InAck, 1, Some(2)), (3, Point::InAck, 1, Some(3))),
    ((3, Point::InAck, 1, Some(3)), (0, Point::InAck, 1, Some(0))),
    (
        (0, Point::BeforeAck, 3, Some(0)),
        (ALL, Point::AfterSettle, 6, None),
    ),
    (
        (1, Point::BeforeAck, 3, Some(1)),
        (ALL, Point::AfterSettle, 6, None),
    ),
    (
        (2, Point::BeforeAck, 2, Some(2)),
        (ALL, Point::AfterSettle, 6, None),
    ),
    (
        (3, Point::BeforeAck, 2, Some(3)),
        (ALL, Point::AfterSettle, 6, None),
    ),
];

/// Of four datapaths and four installers, which are workers 4 to 7, each datapath is held in its first acknowledgement,
/// and each installer with its first step, until the next one is there. A datapath is held before its first
/// acknowledgement until its installer has changed each of its flows to the first step, the installer then until the
/// datapath has acknowledged each of them, and the datapath then until the installer has changed them to the second step.
const FOUR_INSTALLERS: &[Waiting] = &[
    ((0, Point::InAck, 1, Some(0)), (1, Point::InAck, 1, Some(1))),
    ((1, Point::InAck, 1, Some(1)), (2, Point::InAck, 1, Some(2))),
    ((2, Point::InAck, 1, Some(2)), (3, Point::InAck, 1, Some(3))),
    ((3, Point::InAck, 1, Some(3)), (0, Point::InAck, 1, Some(0))),
    (
        (4, Point::AfterTake, 1, Some(0)),
        (5, Point::AfterTake, 1, Some(1)),
    ),
    (
        (5, Point::AfterTake, 1, Some(1)),
        (6, Point::AfterTake, 1, Some(2)),
    ),
    (
        (6, Point::AfterTake, 1, Some(2)),
        (7, Point::AfterTake, 1, Some(3)),
    ),
    (
        (7, Point::AfterTake, 1, Some(3)),
        (4, Point::AfterTake, 1, Some(0)),
    ),
    (
        (0, Point::BeforeAck, 1, Some(0)),
        (4, Point::AfterSettle, 2, Some(4)),
    ),
    (
        (4, Point::AfterSettle, 2, Some(4)),
        (0, Point::AfterAck, 2, Some(4)),
    ),
    (
        (0, Point::BeforeAck, 3, Some(0)),
        (4, Point::AfterSettle, 4, Some(4)),
    ),
    (
        (1, Point::BeforeAck, 1, Some(1)),
        (5, Point::AfterSettle, 2, Some(5)),
    ),
    (
        (5, Point::AfterSettle, 2, Some(5)),
        (1, Point::AfterAck, 2, Some(5)),
    ),
    (
        (1, Point::BeforeAck, 3, Some(1)),
        (5, Point::AfterSettle, 4, Some(5)),
    ),
    (
        (2, Point::BeforeAck, 1, Some(2)),
        (6, Point::AfterSettle, 1, Some(2)),
    ),
    (
        (6, Point::AfterSettle, 1, Some(2)),
        (2, Point::AfterAck, 1, Some(2)),
    ),
    (
        (2, Point::BeforeAck, 2, Some(2)),
        (6, Point::AfterSettle, 2, Some(2)),
    ),
    (
        (3, Point::BeforeAck, 1, Some(3)),
        (7, Point::AfterSettle, 1, Some(3)),
    ),
    (
        (7, Point::AfterSettle, 1, Some(3)),
        (3, Point::AfterAck, 1, Some(3)),
    ),
    (
        (3, Point::BeforeAck, 2, Some(3)),
        (7, Point::AfterSettle, 2, Some(3)),
    ),
];

const SIX_FLOWS: [Held; 2] = [
    Held {
        shows: "six flows of four datapaths are answered",
        words: &["ccp", "live", "--datapaths", "4", "--agents", "4"],
        input: SIX_LOSING,
        holds: FOUR_DATAPATHS,
        output: SIX_BOOKS,
        is_whole: true,
        begun: Some(0),
    },
    Held {
        shows: "four datapaths and four installers serve six flows",
        words: &["ccp", "rollout", "--datapaths", "4", "--agents", "4"],
        input: SIX_STEPS,
        holds: FOUR_INSTALLERS,
        output: SIX_ROLLOUTS,
        is_whole: true,
        begun: Some(0),
    },
];

#[test]
fn four_datapaths_serve_six_flows(rt: HostRuntime) -> Result<(), Fail> {
    for row in &SIX_FLOWS {
        assert!(rt; shows_held(&rt, rt.alloc(), row)?, "{}", row.shows);
    }
    Ok(())
}

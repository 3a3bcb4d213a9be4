//! What agents answer to tickets, with the frames of their answers.
ghost use Rattle.std.specs.Prelude.{◌<◌};
ghost use Rattle.std.specs.Option.{ForSome};

use agent_core::calls::answer;
use agent_core::{Agent, Ticket};
use ccp_base::{FaultKind, Look, Notice, Reply, Report, Role, Told, Values};
use reno_agent::Reno;
use std::process::Abort;

/// The frame of a change to program 1 with a window of 7,240 bytes.
const CHANGE: [u8; 30] = [
    5, 1, 1, 0, 0, 0, 0, 0, 3, 0, 0, 0, 30, 0, 0, 0, 1, 0, 0, 0, 4, 4, 0x48, 0x1c, 0, 0, 0, 0, 0, 0,
];

/// The frame of a window of 8,688 bytes.
const UPDATE: [u8; 26] = [
    4, 1, 1, 0, 0, 0, 0, 0, 3, 0, 0, 0, 26, 0, 0, 0, 4, 4, 0xf0, 0x21, 0, 0, 0, 0, 0, 0,
];

/// The frame of a change to program 1 with a window of 8,688 bytes.
const AGAIN: [u8; 30] = [
    5, 1, 1, 0, 0, 0, 0, 0, 3, 0, 0, 0, 30, 0, 0, 0, 1, 0, 0, 0, 4, 4, 0xf0, 0x21, 0, 0, 0, 0, 0, 0,
];

/// A fault in epoch 1.
const FAULT: Notice = Notice {
    flow: 3,
    program: 1,
    epoch: 1,
    at: 9,
    kind: FaultKind::Overflow,
    index: 0,
    now: 1_000_000,
    cwnd: 8688,
};

/// A program of this number that keeps seven fields, with its control variables.
fn role(number: u32, cap: Option<u32>, mss: Option<u32>) -> Role
    requires cap_below { ForSome cap (λ n. n < 64) }
    requires mss_below { ForSome mss (λ n. n < 64) }
{
    Role {
        number,
        look: Look {
            acked: Some(0),
            loss: Some(2),
            timeout: Some(3),
            rtt: Some(4),
            inflight: Some(5),
            cap,
            mss,
            ecn: Some(6),
        },
    }
}

/// A report of an epoch: bytes acknowledged, packets lost, bytes in flight.
fn report(epoch: u32, now: u64, acked: u64, loss: u64, inflight: u64) -> Told {
    Told::Report(Report {
        flow: 3,
        program: epoch,
        epoch,
        first: 0,
        end: 1,
        now,
        cwnd: 13_032,
        rate: 0,
        fields: Values::from_slice(&[acked, 0, loss, 0, 40_000, inflight, 0]),
    })
}

/// Compares an agent's reply to a report or notice, and its frame, and gives the agent after it.
fn assert_answer(rt: &impl Abort, before: Agent, told: Told, reply: Reply, frame: &[u8]) -> Agent {
    let ticket = Ticket {
        flow: 3,
        number: 0,
        before,
        told,
    };
    let answered = answer(ticket);
    assert!(rt; answered.reply() == reply);
    assert!(rt; answered.frame() == frame);
    assert!(rt; *answered.ticket() == ticket);
    *answered.after()
}

#[test]
fn answers_have_their_frames(rt: HostRuntime) {
    let ss = role(0, Some(0), Some(1));
    let ca = role(1, None, None);
    let agent = Agent::Reno(Reno::new(1448, ss, ca));
    let opening = agent.begin();
    assert!(rt;
        opening
            == Reply::Change {
                program: 0,
                cwnd: 4344,
                cap: u64::MAX
            }
    );
    assert!(rt; agent.values(&opening).len() == 3);
    let cut = Reply::Change {
        program: 1,
        cwnd: 7240,
        cap: 7240,
    };
    let agent = assert_answer(&rt, agent, report(0, 1_000_000, 0, 1, 13_032), cut, &CHANGE);
    let agent = assert_answer(
        &rt,
        agent,
        report(1, 1_020_000, 7240, 0, 7240),
        Reply::Update(8688),
        &UPDATE,
    );
    let agent = assert_answer(
        &rt,
        agent,
        report(0, 1_030_000, 7240, 0, 7240),
        Reply::Nothing,
        &[],
    );
    let again = Reply::Change {
        program: 1,
        cwnd: 8688,
        cap: 7240,
    };
    let _ = assert_answer(&rt, agent, Told::Fault(FAULT), again, &AGAIN);
}

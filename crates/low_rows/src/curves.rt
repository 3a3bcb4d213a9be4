//! What CUBIC keeps of the curve of a loss.
use ccp_base::{Look, Report, Role, Told, Values};
use cubic_agent::Cubic;
use std::test::*;

/// A program with this number, whose fields are those of `report` in order.
fn role(number: u32) -> Role {
    Role {
        number,
        look: Look {
            acked: Some(0),
            loss: Some(1),
            timeout: None,
            rtt: Some(2),
            inflight: None,
            cap: None,
            mss: None,
            ecn: None,
        },
    }
}

/// A report of an epoch with a round-trip sample of 100,000 us: bytes acknowledged, and packets lost.
fn report(epoch: u32, now: u64, cwnd: u64, acked: u64, loss: u64) -> Told {
    Told::Report(Report {
        flow: 0,
        program: 0,
        epoch,
        first: 0,
        end: 0,
        now,
        cwnd,
        rate: 0,
        fields: Values::from_slice(&[acked, loss, 100_000]),
    })
}

/// The time to the window at the loss, in milliseconds, is the cube root of 75,000,000,000, cut.
#[test]
fn cubic_keeps_the_curve_of_a_loss(rt: HostRuntime) {
    let mut agent = Cubic::new(1000, role(0), role(2));
    let _ = agent.reply(&report(0, 5_000_000, 100_000, 0, 1));
    assert!(rt; agent.growth().k == 4217);
    let _ = agent.reply(&report(1, 6_000_000, 70_000, 70_000, 0));
    assert!(rt; agent.growth().w_est == 70_529);
}

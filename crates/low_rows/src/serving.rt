//! What datapath workers do.
ghost use Rattle.std.specs.Prelude.{◌≡◌, ◌+◌, ◌≤◌, Some, None, IfOk, vec_len};
ghost use Rattle.worker_desk.specs.Serving.{flows_of_worker, heard_count, Serves};

use crate::kept::keep;
use ccp_base::Point;
use std::alloc::Global;
use std::process::Abort;
use std::test::Fail;
use worker_desk::{Desk, Event, Heard, LockDesk, run_datapath_worker};

/// A desk of flows whose answers come from a list.
#[derive(Drop)]
struct AnswerDesk<'a, R: Abort> {
    rt: &'a R,
    flows: u32,
    /// The answers that are left, the next one last.
    answers: Vec<Heard>,
    events: Vec<Event>,
    held: Option<u32>,
    ghost few: { flows ≤ 64 },
}

impl<'a, R: Abort> LockDesk for AnswerDesk<'a, R> {
    ghost use Rattle.std.specs.Prelude.{Some, vec_len};

    type Guard = u32;

    ghost log = { λ d. Some d.events.items };

    ghost held = { λ d. d.held };

    ghost flows = { λ d. d.flows };

    ghost coming = { λ d. vec_len d.answers };

    fn flow_count(&self) -> u32 {
        self.flows
    }

    fn lock(&mut self, flow: u32) {
        keep(self.rt, &mut self.events, Event::Locked(flow));
        self.held = Some(flow);
    }

    fn unlock(&mut self, flow: u32) -> u32 {
        keep(self.rt, &mut self.events, Event::Unlocked(flow));
        self.held = None;
        flow
    }

    fn pass(&mut self, worker: u32, point: Point, flow: u32) {
        keep(
            self.rt,
            &mut self.events,
            Event::Passed(worker, point, flow),
        );
    }
}

impl<'a, R: Abort> Desk for AnswerDesk<'a, R> {
    fn ack(&mut self, worker: u32, flow: u32) -> Heard {
        let answer = next(&mut self.answers);
        keep(
            self.rt,
            &mut self.events,
            Event::Acked(worker, flow, answer),
        );
        answer
    }

    fn nudge(&mut self, flow: u32) {
        keep(self.rt, &mut self.events, Event::Nudged(flow));
    }
}

/// The next answer; Ended if none is left.
fn next(answers: &mut Vec<Heard>) -> Heard
    ensures { vec_len answers.new + heard_count result ≤ vec_len answers.old }
{
    match answers.pop() {
        Some(answer) => answer,
        None => Heard::Ended,
    }
}

/// A desk of this many flows with these answers, of which the last one comes first.
fn desk<'a, R: Abort>(
    rt: &'a R,
    alloc: Global,
    flows: u32,
    answers: &[Heard],
) -> Result<AnswerDesk<'a, R>, Fail>
    requires { flows ≤ 64 }
    ensures { IfOk result (λ desk. desk.held ≡ None) }
{
    Ok(AnswerDesk {
        rt,
        flows,
        answers: answers.to_vec(alloc)?,
        events: Vec::new(alloc),
        held: None,
    })
}

/// Does a worker's work. What was done is the definition's for the worker's flows.
fn work<R: Abort>(desk: &mut AnswerDesk<R>, worker: u32, datapaths: u32)
    requires datapaths { 1 ≤ datapaths }
    requires free { desk.old.held ≡ None }
    ensures { Serves worker (flows_of_worker worker datapaths desk.old.flows) (Some desk.old.events.items)
        (Some desk.new.events.items) }
{
    drop(run_datapath_worker(desk, worker, datapaths));
}

/// What worker 0 of 2 does over three flows: it goes round flows 0 and 2.
const ROUNDS: [Event; 32] = [
    Event::Passed(0, Point::BeforeAck, 0),
    Event::Locked(0),
    Event::Acked(0, 0, Heard::Quiet),
    Event::Passed(0, Point::InAck, 0),
    Event::Unlocked(0),
    Event::Passed(0, Point::AfterAck, 0),
    Event::Passed(0, Point::BeforeAck, 2),
    Event::Locked(2),
    Event::Acked(0, 2, Heard::Reported),
    Event::Passed(0, Point::InAck, 2),
    Event::Unlocked(2),
    Event::Nudged(2),
    Event::Passed(0, Point::AfterAck, 2),
    Event::Passed(0, Point::BeforeAck, 0),
    Event::Locked(0),
    Event::Acked(0, 0, Heard::Faulted),
    Event::Passed(0, Point::InAck, 0),
    Event::Unlocked(0),
    Event::Nudged(0),
    Event::Passed(0, Point::AfterAck, 0),
    Event::Passed(0, Point::BeforeAck, 2),
    Event::Locked(2),
    Event::Acked(0, 2, Heard::Ended),
    Event::Passed(0, Point::InAck, 2),
    Event::Unlocked(2),
    Event::Passed(0, Point::AfterAck, 2),
    Event::Passed(0, Point::BeforeAck, 0),
    Event::Locked(0),
    Event::Acked(0, 0, Heard::Ended),
    Event::Passed(0, Point::InAck, 0),
    Event::Unlocked(0),
    Event::Passed(0, Point::AfterAck, 0),
];

#[test]
fn a_worker_goes_round_its_flows(rt: HostRuntime) -> Result<(), Fail> {
    let answers = [
        Heard::Ended,
        Heard::Ended,
        Heard::Faulted,
        Heard::Reported,
        Heard::Quiet,
    ];
    let mut desk = desk(&rt, rt.alloc(), 3, &answers)?;
    work(&mut desk, 0, 2);
    assert!(rt; desk.events.as_slice() == &ROUNDS[..]);
    Ok(())
}

/// What worker 1 of 2 does over one flow: nothing.
#[test]
fn a_worker_without_flows_does_nothing(rt: HostRuntime) -> Result<(), Fail> {
    let mut desk = desk(&rt, rt.alloc(), 1, &[])?;
    work(&mut desk, 1, 2);
    assert!(rt; desk.events.is_empty());
    Ok(())
}

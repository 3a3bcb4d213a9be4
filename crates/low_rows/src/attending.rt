//! What agent workers do.
ghost use Rattle.std.specs.Prelude.{◌≡◌, ◌≤◌, ◌++◌, [], ◌∷◌, Some, None, IfOk};
ghost use Rattle.worker_desk.specs.declared.event.Event.TheVariants.{Took};
ghost use Rattle.worker_desk.specs.Attending.{Attends};

use crate::kept::keep;
use agent_core::{Agent, Answer, Ticket};
use ccp_base::{FaultKind, Look, Notice, Point, Role, Told};
use reno_agent::Reno;
use std::alloc::Global;
use std::process::Abort;
use std::test::Fail;
use worker_desk::{AgentDesk, Event, LockDesk, run_agent_worker};

/// A desk whose numbers and tickets come from lists.
#[derive(Drop)]
struct TicketDesk<'a, R: Abort> {
    rt: &'a R,
    flows: u32,
    /// The numbers that are left, the next one last.
    numbers: Vec<u32>,
    /// The tickets that are left, the next one last, None if none can be taken.
    tickets: Vec<Option<Ticket>>,
    events: Vec<Event>,
    held: Option<u32>,
    ghost few: { flows ≤ 64 },
}

impl<'a, R: Abort> LockDesk for TicketDesk<'a, R> {
    ghost use Rattle.std.specs.Prelude.{Some, vec_len};

    type Guard = u32;

    ghost log = { λ d. Some d.events.items };

    ghost held = { λ d. d.held };

    ghost flows = { λ d. d.flows };

    ghost coming = { λ d. vec_len d.numbers };

    fn flow_count(&self) -> u32 {
        self.flows
    }

    fn lock(&mut self, flow: u32) {
        keep(self.rt, &mut self.events, Event::Locked(flow));
        self.held = Some(flow);
    }

    fn unlock(&mut self, flow: u32) -> u32 {
        keep(self.rt, &mut self.events, Event::Unlocked(flow));
        self.held = None;
        flow
    }

    fn pass(&mut self, worker: u32, point: Point, flow: u32) {
        keep(
            self.rt,
            &mut self.events,
            Event::Passed(worker, point, flow),
        );
    }
}

impl<'a, R: Abort> AgentDesk for TicketDesk<'a, R> {
    fn receive(&mut self) -> Option<u32> {
        let number = self.numbers.pop();
        keep(self.rt, &mut self.events, Event::Received(number));
        number
    }

    fn take(&mut self, flow: u32) -> Option<Ticket> {
        let taken = next(&mut self.tickets);
        keep_taken(self.rt, &mut self.events, flow, &taken);
        taken
    }

    fn settle(&mut self, flow: u32, answer: Answer) {
        keep(
            self.rt,
            &mut self.events,
            Event::Settled(flow, *answer.ticket()),
        );
    }
}

/// Puts the taking of a ticket at the end of what was done.
fn keep_taken<R: Abort>(rt: &R, events: &mut Vec<Event>, flow: u32, taken: &Option<Ticket>)
    ensures { events.new.items ≡ events.old.items ++ Took flow taken.now ∷ [] }
{
    let ticket = *taken;
    keep(rt, events, Event::Took(flow, ticket));
}

/// The next ticket.
fn next(tickets: &mut Vec<Option<Ticket>>) -> Option<Ticket> {
    match tickets.pop() {
        Some(taken) => taken,
        None => None,
    }
}

/// Does a worker's work. What was done is the definition's for the desk's flows.
fn work<R: Abort>(desk: &mut TicketDesk<R>, worker: u32)
    requires { desk.old.held ≡ None }
    ensures { Attends worker desk.old.flows (Some desk.old.events.items) (Some desk.new.events.items) }
{
    drop(run_agent_worker(desk, worker));
}

/// A ticket of flow 1, with a fault of program 0.
fn ticket() -> Ticket {
    let look = Look {
        acked: None,
        loss: None,
        timeout: None,
        rtt: None,
        inflight: None,
        cap: None,
        mss: None,
        ecn: None,
    };
    let role = Role { number: 0, look };
    let fault = Notice {
        flow: 1,
        program: 0,
        epoch: 0,
        at: 1,
        kind: FaultKind::Overflow,
        index: 0,
        now: 0,
        cwnd: 4344,
    };
    Ticket {
        flow: 1,
        number: 0,
        before: Agent::Reno(Reno::new(1448, role, role)),
        told: Told::Fault(fault),
    }
}

/// What worker 2 does if it receives the numbers 1, 5 and 0, with two flows, of which flow 0 has nothing to take.
fn errands() -> [Event; 16] {
    [
        Event::Received(Some(1)),
        Event::Locked(1),
        Event::Took(1, Some(ticket())),
        Event::Unlocked(1),
        Event::Passed(2, Point::AfterTake, 1),
        Event::Locked(1),
        Event::Settled(1, ticket()),
        Event::Unlocked(1),
        Event::Passed(2, Point::AfterSettle, 1),
        Event::Received(Some(5)),
        Event::Received(Some(0)),
        Event::Locked(0),
        Event::Took(0, None),
        Event::Unlocked(0),
        Event::Passed(2, Point::AfterTake, 0),
        Event::Received(None),
    ]
}

/// A desk of two flows, to which these numbers come, and which has a ticket of flow 1.
fn desk<'a, R: Abort>(rt: &'a R, alloc: Global) -> Result<TicketDesk<'a, R>, Fail>
    ensures { IfOk result (λ desk. desk.held ≡ None) }
{
    let mut tickets = Vec::new(alloc);
    tickets.push(None)?;
    tickets.push(Some(ticket()))?;
    Ok(TicketDesk {
        rt,
        flows: 2,
        numbers: [0, 5, 1].to_vec(alloc)?,
        tickets,
        events: Vec::new(alloc),
        held: None,
    })
}

/// Whether just these errands were done.
fn has_done_errands(events: &[Event]) -> bool {
    events == &errands()[..]
}

#[test]
fn a_worker_tends_each_flow_that_comes(rt: HostRuntime) -> Result<(), Fail> {
    let mut desk = desk(&rt, rt.alloc())?;
    work(&mut desk, 2);
    assert!(rt; has_done_errands(desk.events.as_slice()));
    Ok(())
}

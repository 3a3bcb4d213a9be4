//! What agent workers do: they take tickets and settle answers, which they work out without a lock.
ghost use Rattle.std.specs.Prelude.{◌≡◌, ◌<◌, None};
ghost use Rattle.worker_desk.specs.Logs.{Logs};
ghost use Rattle.worker_desk.specs.Attending.{taking, settling, Tends, Attends};

use crate::agent_desk::AgentDesk;
use crate::receipt::{AgentShare, Attended, Duty, Receipt};
use agent_core::calls::answer;
use agent_core::{Answer, Ticket};
use ccp_base::Point;

/// The work of an agent worker: for each number that it receives a taking of that flow, until no more come. A number
/// that isn't a flow's is ignored.
pub fn run_agent_worker<D: AgentDesk>(desk: &mut D, worker: u32) -> Attended
    requires { D.held desk.old ≡ None }
    ensures attended { result ≡ record { worker = worker; flows = D.flows desk.old; share = record {} } }
    ensures attends { Attends worker (D.flows desk.old) (D.log desk.old) (D.log desk.new) }
{
    let flows = desk.flow_count();
    while let Some(flow) = desk.receive() {
        if flow < flows {
            answer_one(desk, worker, flow);
        }
    }
    Receipt {
        duty: Duty {
            worker,
            flows,
            share: AgentShare,
        },
    }
}

/// Takes a ticket of a flow, if there is one, and settles its answer, which is worked out while no lock is held.
fn answer_one<D: AgentDesk>(desk: &mut D, worker: u32, flow: u32)
    requires flow { flow < D.flows desk.old }
    requires free { D.held desk.old ≡ None }
    ensures tends { Tends worker flow (D.log desk.old) (D.log desk.new) }
    ensures free { D.held desk.new ≡ None }
    ensures flows { D.flows desk.new ≡ D.flows desk.old }
    ensures coming { D.coming desk.new ≡ D.coming desk.old }
{
    let taken = take(desk, flow);
    desk.pass(worker, Point::AfterTake, flow);
    let Some(ticket) = taken else {
        return;
    };
    settle(desk, flow, answer(ticket));
    desk.pass(worker, Point::AfterSettle, flow);
}

/// Takes a ticket under the flow's lock.
fn take<D: AgentDesk>(desk: &mut D, flow: u32) -> Option<Ticket>
    requires flow { flow < D.flows desk.old }
    requires free { D.held desk.old ≡ None }
    ensures log { Logs (D.log desk.old) (D.log desk.new) (taking flow result) }
    ensures free { D.held desk.new ≡ None }
    ensures flows { D.flows desk.new ≡ D.flows desk.old }
    ensures coming { D.coming desk.new ≡ D.coming desk.old }
{
    desk.lock(flow);
    let taken = desk.take(flow);
    drop(desk.unlock(flow));
    taken
}

/// Settles an answer under the flow's lock.
fn settle<D: AgentDesk>(desk: &mut D, flow: u32, answer: Answer)
    requires flow { flow < D.flows desk.old }
    requires free { D.held desk.old ≡ None }
    ensures log { Logs (D.log desk.old) (D.log desk.new) (settling flow answer) }
    ensures free { D.held desk.new ≡ None }
    ensures flows { D.flows desk.new ≡ D.flows desk.old }
    ensures coming { D.coming desk.new ≡ D.coming desk.old }
{
    desk.lock(flow);
    desk.settle(flow, answer);
    drop(desk.unlock(flow));
}

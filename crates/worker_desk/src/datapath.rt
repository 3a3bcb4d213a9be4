//! What datapath workers do: acknowledgements of their flows, one of each in turn, under the flow's lock.
ghost use Rattle.std.specs.Prelude.{◌≡◌, ℕ, ◌+◌, ◌<◌, ◌≤◌, if◌then◌else◌, None};
ghost use Rattle.std.specs.Prelude.{[], ◌∷◌, ◌++◌, take, drop, slice_index};
ghost use Rattle.worker_desk.specs.Logs.{Logs, KnownLog};
ghost use Rattle.worker_desk.specs.Serving.{hearing_events, flows_of_worker, turn, again, heard_count, Serves};

use crate::desk::Desk;
use crate::event::Heard;
use crate::receipt::{DatapathShare, Duty, Receipt, Served};
use crate::row::{put, row_of};
use ccp_base::Point;

/// An acknowledgement of a flow, under the flow's lock.
fn hear<D: Desk>(desk: &mut D, worker: u32, flow: u32) -> Heard
    requires flow { flow < D.flows desk.old }
    requires free { D.held desk.old ≡ None }
    ensures log { Logs (D.log desk.old) (D.log desk.new) (hearing_events worker flow result) }
    ensures free { D.held desk.new ≡ None }
    ensures flows { D.flows desk.new ≡ D.flows desk.old }
    ensures coming { D.coming desk.new + heard_count result ≤ D.coming desk.old }
{
    desk.lock(flow);
    let answer = desk.ack(worker, flow);
    desk.pass(worker, Point::InAck, flow);
    drop(desk.unlock(flow));
    answer
}

/// One turn of a flow. If a report or a fault waits afterwards, an agent worker gets a nudge.
fn acknowledge<D: Desk>(desk: &mut D, worker: u32, flow: u32) -> Heard
    requires flow { flow < D.flows desk.old }
    requires free { D.held desk.old ≡ None }
    ensures log { Logs (D.log desk.old) (D.log desk.new) (turn worker flow result) }
    ensures free { D.held desk.new ≡ None }
    ensures flows { D.flows desk.new ≡ D.flows desk.old }
    ensures coming { D.coming desk.new + heard_count result ≤ D.coming desk.old }
{
    desk.pass(worker, Point::BeforeAck, flow);
    let answer = hear(desk, worker, flow);
    if let Heard::Reported | Heard::Faulted = answer {
        desk.nudge(flow);
    }
    desk.pass(worker, Point::AfterAck, flow);
    answer
}

/// One turn of each flow that stands at the front of `row`. Those that come again stand there afterwards, in order, and
/// it answers how many they are.
fn round<D: Desk>(desk: &mut D, worker: u32, row: &mut [u32; 64], count: usize) -> usize
    requires count { count ≤ 64 }
    requires flows { (k : ℕ) → k < count → slice_index row.old k < D.flows desk.old }
    requires free { D.held desk.old ≡ None }
    ensures free { D.held desk.new ≡ None }
    ensures fewer { result ≤ count }
    ensures flows { (k : ℕ) → k < count → slice_index row.new k < D.flows desk.new }
    ensures same { D.flows desk.new ≡ D.flows desk.old }
    ensures coming { D.coming desk.new + result ≤ D.coming desk.old }
    ensures rest { (end : KnownLog)
        → Serves worker (take result row.new) (D.log desk.new) end
        → Serves worker (take count row.old) (D.log desk.old) end }
{
    let mut kept = 0;
    for place in 0..count {
        let flow = row[place];
        let answer = acknowledge(desk, worker, flow);
        kept = keep(row, kept, flow, answer);
    }
    kept
}

/// Whether a flow comes again after its answer.
// for the prover: its clauses make one `if` of two definitions by cases
fn comes_again(answer: Heard) -> bool
    ensures heard { heard_count answer ≡ if result then 1 else 0 }
    ensures again { (flow : ℕ) → again flow answer ≡ if result then flow ∷ [] else [] }
{
    !matches!(answer, Heard::Ended)
}

/// Puts a flow that comes again at the end of those at the front of a row, and answers how many these are then.
fn keep(row: &mut [u32; 64], count: usize, flow: u32, answer: Heard) -> usize
    requires { count < 64 }
    ensures count { result ≡ count + heard_count answer }
    ensures most { result ≤ count + 1 }
    ensures front { take result row.new ≡ take count row.old ++ again flow answer }
    ensures later { (n : ℕ) → count < n → drop n row.new ≡ drop n row.old }
    ensures below { (flows n : ℕ) → flow < flows → ((k : ℕ) → k < n → slice_index row.old k < flows)
        → (k : ℕ) → k < n → slice_index row.new k < flows }
{
    if comes_again(answer) {
        put(row, count, flow)
    } else {
        count
    }
}

/// The work of a datapath worker: the acknowledgements of the flows `f` with `f mod datapaths = worker`, one of each in
/// turn, until all of them are in.
pub fn run_datapath_worker<D: Desk>(desk: &mut D, worker: u32, datapaths: u32) -> Served
    requires datapaths { 1 ≤ datapaths }
    requires free { D.held desk.old ≡ None }
    ensures served { result
        ≡ record { worker = worker; flows = D.flows desk.old; share = record { workers = datapaths } } }
    ensures serves { Serves worker (flows_of_worker worker datapaths (D.flows desk.old))
        (D.log desk.old) (D.log desk.new) }
{
    let flows = desk.flow_count();
    let (mut row, mut count) = row_of(flows, worker, datapaths);
    while count > 0 {
        count = round(desk, worker, &mut row, count);
    }
    Receipt {
        duty: Duty {
            worker,
            flows,
            share: DatapathShare { workers: datapaths },
        },
    }
}

//! The duties of workers, and the receipts that show the work of a duty done.
use std::marker::Model;
use std::thread::Promise;

/// A worker's number at the gate, how many flows there are, and its share of them, which is of another type for each
/// kind of worker.
#[derive(Clone, Copy)]
pub struct Duty<S> {
    pub worker: u32,
    pub flows: u32,
    pub share: S,
}

/// The share of a datapath worker: the flows `f` with `f mod workers` its number.
#[derive(Clone, Copy)]
pub struct DatapathShare {
    pub workers: u32,
}

/// The share of an installer: the flows `f` with `f mod workers = first`.
#[derive(Clone, Copy)]
pub struct InstallerShare {
    pub first: u32,
    pub workers: u32,
}

/// The share of an agent worker: each flow whose number it receives.
#[derive(Clone, Copy)]
pub struct AgentShare;

/// A campaign worker's number, and its share of the first `cases` cases: the cases `c` with `c mod workers = worker`.
#[derive(Clone, Copy)]
pub struct CaseDuty {
    pub worker: u32,
    pub workers: u32,
    pub cases: u32,
}

/// A case, and the number of the worker that runs it.
#[derive(Clone, Copy)]
pub struct WorkerCase {
    pub worker: u32,
    pub case: u32,
}

/// The work of a duty was done. Only the function that does the work makes one; contracts see the duty.
#[derive(Drop)]
pub struct Receipt<D> {
    pub(crate) duty: D,
}

impl<D> Model for Receipt<D> {
    ghost Value = { D };

    ghost view = { λ r. r.duty };
}

impl<S> Promise<Receipt<Duty<S>>> for Duty<S> {
    ghost use Rattle.std.specs.Prelude.{◌≡◌};

    ghost kept_by = { λ duty receipt. receipt ≡ duty };
}

/// The work of a datapath worker was done, by `run_datapath_worker`.
pub type Served = Receipt<Duty<DatapathShare>>;

/// The work of an installer was done, by `run_installer`.
pub type Equipped = Receipt<Duty<InstallerShare>>;

/// The work of an agent worker was done, by `run_agent_worker`.
pub type Attended = Receipt<Duty<AgentShare>>;

/// The work of a campaign's worker was done by `run_cases`, and memory didn't run out.
pub type CasesRun = Receipt<CaseDuty>;

/// A case was run to its end between its two points of the gate, by `run_between_points`.
pub type CaseRun = Receipt<WorkerCase>;

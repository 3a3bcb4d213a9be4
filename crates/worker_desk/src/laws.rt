//! The laws of workers: which flows a datapath worker asks, which texts an installer builds, that each worker holds one
//! lock at a time, and which cases a campaign's workers run.
ghost use Rattle.worker_desk.specs.CasesLaw.{WorkerRunsOnce, WorkersRunOnce};
ghost use Rattle.worker_desk.specs.EquippingLaw.{EquippingLaw};
ghost use Rattle.worker_desk.specs.LocksLaw.{ServingKeepsLocks, AttendingKeepsLocks, EquippingKeepsLocks};
ghost use Rattle.worker_desk.specs.ServingLaw.{ServingLaw};

/// What a datapath worker did, whatever the answers were: each of its flows is asked until it answered that it has
/// ended and not again, no other flow is, none is asked twice while another one that hasn't ended waits, and an agent
/// worker is sent a nudge after each report and each fault and at no other time.
pub fn serving_law()
    ensures { ServingLaw }
{}

/// What an installer did, whatever came of the texts: it builds each step of each of its flows once, no step of another
/// flow and no later step, and after a step it builds no earlier one, of whatever flow.
pub fn equipping_law()
    ensures { EquippingLaw }
{}

/// What each kind of worker did, whatever the answers were: it holds one lock at a time, does what it does to a flow
/// under the flow's lock and passes `InAck` there, holds none when it passes another point, sends or receives a number
/// or builds a text, and gives each lock back. A text counts here if its entry is taken; `InstallDesk::take_entry`
/// requires that nothing was done since its source was given.
pub fn locks_law()
    ensures serving { ServingKeepsLocks }
    ensures attending { AttendingKeepsLocks }
    ensures equipping { EquippingKeepsLocks }
{}

/// What a worker of a campaign did if memory didn't run out: it runs each of its cases once, in order, and no other
/// case. It passes the gate at `InCase` directly before each run and at `AfterCase` directly after it, and at no other
/// time. All workers of a campaign together run each of its cases once.
pub fn cases_law()
    ensures worker { WorkerRunsOnce }
    ensures workers { WorkersRunOnce }
{}

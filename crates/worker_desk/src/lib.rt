//! What a worker of threads does, over a desk that stands for what it works on: locks, flows, a gate and messages.
#![tactic(auto)]

mod agent;
mod agent_desk;
mod case_desk;
mod cases;
mod datapath;
mod desk;
mod event;
mod install_desk;
mod installer;
mod laws;
mod lock_desk;
mod receipt;
mod row;
mod work;

pub use agent::run_agent_worker;
pub use agent_desk::AgentDesk;
pub use case_desk::{CaseDesk, GatedDesk};
pub use cases::{run_between_points, run_cases};
pub use datapath::run_datapath_worker;
pub use desk::Desk;
pub use event::{CaseEvent, Event, Heard};
pub use install_desk::InstallDesk;
pub use installer::run_installer;
pub use laws::{cases_law, equipping_law, locks_law, serving_law};
pub use lock_desk::LockDesk;
pub use receipt::{
    AgentShare, Attended, CaseDuty, CaseRun, CasesRun, DatapathShare, Duty, Equipped,
    InstallerShare, Receipt, Served, WorkerCase,
};
pub use work::{Work, end_all};

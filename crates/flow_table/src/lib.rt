//! Flows behind locks: a table of them, what datapath workers do to them, and their books once all workers are done.
//! What a flow is stands behind a trait.
#![tactic(auto)]

mod books;
mod datapath;
mod flow;
mod flow_desk;
mod guarded_flow;
mod live_flow;
mod nudges;
mod serving;
mod table;
mod turn;
mod workers;

pub use books::make_books;
pub use datapath::run_datapath_worker;
pub use flow::LockedFlow;
pub use nudges::{NoNudges, Nudges};
pub use serving::begin_serving;
pub use table::FlowTable;
pub use workers::WorkerCounts;

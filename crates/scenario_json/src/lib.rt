//! Scenarios: what a run's programs, traces and flows are, read from JSON, and the generated scenario.
#![tactic(auto)]

pub mod calls;
mod cases;
mod draws;
mod flow_links;
mod parsed_scene;
mod scenario;
mod scene_programs;

pub use scene_core::{Scenario, SharedScene};
pub use scene_faults::SceneFault;
pub use scene_members::{OpenCase, OpenCases, Path, SceneMode};

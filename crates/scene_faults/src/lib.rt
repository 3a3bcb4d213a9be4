//! Why a text is no scenario, and the text that says so.
#![tactic(auto)]

mod fault;
mod refusal;

pub use fault::SceneFault;
pub use refusal::put_scene_refusal;

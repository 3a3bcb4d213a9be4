//! A flow whose changes and updates come from outside: its link, its programs and its history, driven letter by letter.
#![tactic(auto)]

mod after_end;
mod answer;
mod case;
mod driven;
mod front;
mod journal;
mod letters;
mod messages;
mod programs;
mod refusal;
mod running;
mod scene;
mod session;
mod session_laws;
mod state;
mod timeline;

pub use after_end::after_end_law;
pub use answer::Answer;
pub use case::DrivenCase;
pub use driven::DrivenFlow;
pub use front::{Front, FrontFault, front_law, read_front};
pub use programs::{Programs, first_bad, is_known};
pub use refusal::Refusal;
pub use scene::driven_cases;
pub use session::Session;
pub use session_laws::{session_law, session_lift_law};
pub use timeline::put_flow_part;

//! The members of a scenario: what each says in JSON, and why one isn't read. Of the texts of programs only the names
//! and the bytes are read here.
#![tactic(auto)]

mod case;
mod case_losses;
mod case_numbers;
mod case_programs;
mod fault;
mod json;
mod json_place;
mod key;
mod mode;
mod named;
mod names;
mod open_case;
mod open_cases;
mod open_steps;
mod open_texts;
mod plan;
mod shared;
mod traces;
mod values;
mod whole;

pub use fault::{MemberFault, Path};
pub use json::value_in;
pub use key::Key;
pub use mode::SceneMode;
pub use named::{Named, named_members, named_text};
pub use open_case::{OpenCase, OpenCases, StepTexts};
pub use open_cases::open_plans_in;
pub use plan::{AgentNumbers, LinkNumbers, LossPlan, Plan, Plans, Programs};
pub use shared::{Shares, shares_in};
pub use traces::{Traces, traces_in};
pub use values::member;
pub use whole::{cases_in, opening};

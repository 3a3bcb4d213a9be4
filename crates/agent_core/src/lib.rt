//! Tickets and answers: an agent gets a ticket's report or fault, and its answer keeps the ticket.
#![tactic(auto)]

mod agent;
mod answer;
pub mod calls;
mod frame;
mod kind;
mod same;
mod ticket;

pub use agent::Agent;
pub use answer::Answer;
pub use kind::{BUILT_INS, Kind};
pub use same::same_role;
pub use ticket::Ticket;

//! The ticket: a report or a fault notice on its way to a flow's agent, with the agent before it.
ghost use Rattle.std.specs.Prelude.{◌≡◌, ◌↔◌, IsTrue};

use crate::agent::Agent;
use crate::same::{same_agent, same_told};
use ccp_base::Told;

/// What an agent gets: the flow, the ticket's number in that flow, from 0, the agent before it, and the content.
#[derive(Clone, Copy, PartialEq, Eq)]
pub struct Ticket {
    pub flow: u32,
    pub number: u32,
    pub before: Agent,
    pub told: Told,
}

impl Ticket {
    /// Whether two tickets are equal.
    pub fn same(&self, other: &Ticket) -> bool
        ensures { IsTrue result ↔ (self.now ≡ other.now) }
    {
        if self.flow != other.flow || self.number != other.number {
            return false;
        }
        if !same_agent(&self.before, &other.before) {
            return false;
        }
        same_told(&self.told, &other.told)
    }
}

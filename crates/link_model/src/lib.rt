//! The virtual link: traces, the case of a link, and the link that answers a window with an acknowledgement.
#![tactic(auto)]

mod allowed;
mod arrival;
mod chance;
mod flight;
mod line;
mod link;
mod link_case;
mod past;
mod queue;
mod rules;
mod trace;
mod trace_text;
mod traffic;

pub use arrival::Arrival;
pub use chance::Chance;
pub use link::Link;
pub use link_case::LinkCase;
pub use past::Past;
pub use queue::Queue;
pub use rules::{allowance, arrival_ack, byte_rate, is_at, is_marked, next_loss, timeout_ack};
pub use trace::{Trace, TraceFault};
pub use traffic::put_in_flight;

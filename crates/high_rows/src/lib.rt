//! Tests of flows and of the whole tool: workers that are held, streams that fail, inputs in pieces, outboxes that are
//! full, calls that no mode makes and answers that none gets. What the built program shows is a row of `rows/`.
#![tactic(auto)]

#[cfg(test)]
mod books;
#[cfg(test)]
mod cells;
#[cfg(test)]
mod entries;
#[cfg(test)]
mod faults;
#[cfg(test)]
mod feeds;
#[cfg(test)]
mod flows;
#[cfg(test)]
mod held_workers;
#[cfg(test)]
mod hold_gate;
#[cfg(test)]
mod locks;
#[cfg(test)]
mod outboxes;
#[cfg(test)]
mod ran;
#[cfg(test)]
mod rollouts;
#[cfg(test)]
mod runs;
#[cfg(test)]
mod six_flows;
#[cfg(test)]
mod soaks;
#[cfg(test)]
mod sums;
#[cfg(test)]
mod turns;
#[cfg(test)]
mod words;

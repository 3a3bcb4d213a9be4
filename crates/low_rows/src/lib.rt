//! Tests of the crates below the flows: calls that no mode makes, answers that none gets, lists that are full, streams
//! that fail, and workers over desks in memory. What the built program shows is a row of `rows/`.
#![tactic(auto)]

#[cfg(test)]
mod answers;
#[cfg(test)]
mod attending;
#[cfg(test)]
mod curves;
#[cfg(test)]
mod equipping;
#[cfg(test)]
mod frames;
#[cfg(test)]
mod kept;
#[cfg(test)]
mod looks;
#[cfg(test)]
mod messages;
#[cfg(test)]
mod packing;
#[cfg(test)]
mod pools;
#[cfg(test)]
mod printing;
#[cfg(test)]
mod refusals;
#[cfg(test)]
mod replies;
#[cfg(test)]
mod roots;
#[cfg(test)]
mod serving;
#[cfg(test)]
mod slots;
#[cfg(test)]
mod starts;
#[cfg(test)]
mod streams;
#[cfg(test)]
mod texts;
#[cfg(test)]
mod verifying;

//! A pool: one region of words, cut into slots of equal length that are taken and given back.
//!
//! The free slots form a list that runs through their own words, so a pool takes memory only when
//! it is made, and each later call is constant work, but for the zeros of a slot that is taken.
#![tactic(auto)]

mod pool;
mod region;
mod slot;
mod slots;

pub use pool::Pool;
pub use slot::{Full, Slot};
pub use slots::Slots;

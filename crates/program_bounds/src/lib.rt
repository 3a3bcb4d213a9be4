//! Which places of a program can fault, and in which ranges its values stay, for every list of acknowledgements that
//! meets some premises.
#![tactic(auto)]

mod begin;
mod bounds;
mod found;
mod premises;
mod settle;
mod turns;
mod updates;
mod within;

pub use bounds::bounds_of;
pub use found::{Bounds, Found};
pub use premises::{Item, Kind, Order, Premises};

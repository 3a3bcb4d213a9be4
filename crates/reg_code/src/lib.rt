//! Register code, to which datapath programs are compiled: its form, what it does on an acknowledgement, and
//! which code is accepted.
#![tactic(auto)]

mod checked;
mod code;
mod flat;
mod flattening;
mod form;
mod limits;
mod neat;
mod op_number;
mod packed;
pub mod places;
mod rule;
mod text;

pub use ccp_base::{FIELDS, Op2, PRIMITIVES, Sequence};
pub use checked::Checked;
pub use code::{Code, Event, FEW_FIELDS, Implicit, Instr, Op, Reg, Start};
pub use flat::FlatEntry;
pub use form::Form;
pub use limits::{CONTROLS, EVENTS, INSTRS, LOCALS, TEMPS, TENTHS, limits_hold};
pub use op_number::op_numbered;
pub use packed::Packed;
pub use rule::{Part, Rule, Sizes};
pub use text::listing;

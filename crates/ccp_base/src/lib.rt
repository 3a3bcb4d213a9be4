//! What every crate of `ccp` stands on: checked numbers, the acknowledgement and its primitives, lists that
//! are held in place, what flows and agents exchange, and the streams of the outside.
#![tactic(auto)]

mod ack;
mod arithmetic;
mod course;
mod equality;
mod exchange;
mod fields;
mod gate;
mod limits;
mod look;
mod measurement;
mod memory;
mod name;
mod numerals;
mod operation;
mod outside;
mod parts;
mod place;
mod primitive_names;
mod running_epoch;
mod sequence;
mod sink;
mod source;
mod stream;
mod values;
mod workers;

pub use ack::{Ack, Acks, PRIMITIVES, ack_of, bool_number, is_flag, is_true, prim, primitives};
pub use arithmetic::{FaultKind, add, div, moving_average, mul, sub};
pub use course::{Course, Phase, initial_segments};
pub use equality::{same_bytes, same_number};
pub use exchange::{Notice, Reply, Report, Reports, Told};
pub use fields::{FieldReg, Fields, PAIRS};
pub use gate::{Gate, OpenGate, Point};
pub use limits::limits_hold;
pub use look::{Look, Role};
pub use measurement::Measurement;
pub use memory::{MemSink, MemSource};
pub use name::{NAME_BYTES, Name, Names};
pub use numerals::numeral;
pub use operation::{Op2, is_operation_mark, operation_numbered, operator_of};
pub use outside::{Failed, NoMemory, ReadFault};
pub use parts::{Separator, first_part, without_return};
pub use place::Place;
pub use primitive_names::{PRIMITIVE_NAMES, primitive_named, value_named};
pub use running_epoch::RunningEpoch;
pub use sequence::{Bytes, Numbers, Sequence};
pub use sink::{Sink, write_all};
pub use source::{Source, read_all};
pub use stream::{ReadStream, Reader, StdErr, StdIn, StdOut, WriteStream, Writer};
pub use values::{VALUES, Values};
pub use workers::Workers;

/// The most report fields that a program declares.
pub const FIELDS: u32 = 64;

/// The most texts that a flow changes to in turn.
pub const STEPS: usize = 16;

//! A program with the code that simulates it and the source places of its instructions.
ghost use Rattle.std.specs.Prelude.{◌≡◌, None};
ghost use Rattle.portus_core.specs.ProgramForm.{form_of};
ghost use Rattle.reg_compiler.specs.Refusal.{refusal_of};
ghost use Rattle.reg_compiler.specs.Simulation.{Simulates};

use ccp_base::{Place, Sequence};
use portus_core::Program;
use reg_code::Checked;

/// A program and code that simulates it: for every state that the program can have, every acknowledgement and either
/// room, the code has the same outcome with the same fields, and leaves the same state. If the program faults, the code
/// faults at an instruction with the same place, and the other way round. The compiler refuses no such program.
#[derive(Drop)]
pub struct Built {
    pub program: Program,
    pub code: Checked,
    /// The place of each instruction: that of its operation's head atom, and 1:1 for a `Bind`,
    /// which can't fault.
    pub places: Sequence<Place>,
    pub ghost simulates: { Simulates (form_of program) code.code places },
    pub ghost compiled: { refusal_of (form_of program) ≡ None },
}

/// Programs with their code, each with its number.
pub type Builts = Sequence<(u32, Built)>;

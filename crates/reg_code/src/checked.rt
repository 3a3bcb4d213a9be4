//! Code that each rule of acceptance accepts, for the machine to run.
ghost use Rattle.std.specs.Prelude.{◌≡◌, IfOk};
ghost use Rattle.reg_code.specs.AcceptedCode.{IsAccepted};
ghost use Rattle.reg_code.specs.Sound.{IsSound, RunsWithin};

use crate::code::Code;
use ccp_base::NoMemory;
use std::alloc::Global;

/// A code that each rule of acceptance accepts.
#[derive(Drop)]
pub struct Checked {
    pub code: Code,
    pub ghost accepted: { IsAccepted code },
}

impl Checked {
    /// The code as an accepted one.
    pub fn new(code: Code) -> Self
        requires { IsAccepted code }
        ensures { result.code ≡ code }
    {
        Checked { code }
    }

    /// The code. An acknowledgement runs at most as many instructions as it has, and none of them reads a register
    /// without a value.
    pub fn code(&self) -> &Code
        ensures code { result.now ≡ self.now.code }
        ensures accepted { IsAccepted result.now }
        ensures sound { IsSound result.now }
        ensures within { RunsWithin result.now }
    {
        &self.code
    }

    /// An equal code, accepted as well.
    pub fn copy(&self, alloc: Global) -> Result<Self, NoMemory>
        ensures { IfOk result (λ checked. checked ≡ self.now) }
    {
        Ok(Checked {
            code: self.code.copy(alloc)?,
        })
    }
}

//! What a program keeps between acknowledgements, the result of one, and why a program isn't started.
ghost use Rattle.std.specs.Prelude.{◌≡◌, IfOk, length};
ghost use Rattle.ccp_base.specs.Outside.{no_memory};

use ccp_base::{FaultKind, NoMemory, Numbers, Place, Values};
use std::alloc::{AllocError, Global};

/// What a program keeps from one acknowledgement to the next.
#[derive(Drop)]
pub struct Env {
    /// The report fields in order of declaration.
    pub fields: Numbers,
    /// The control variables in order of declaration.
    pub controls: Numbers,
    /// The congestion window, in bytes.
    pub cwnd: u64,
    /// The pacing rate, in bytes a second.
    pub rate: u64,
    /// Time zero, in microseconds: `Micros` counts from it.
    pub zero: u64,
}

impl Env {
    /// An equal env in memory of its own.
    pub fn copy(&self, alloc: Global) -> Result<Env, NoMemory>
        ensures { IfOk result (λ env. env ≡ self.now) }
    {
        Ok(Env {
            fields: copy_of(alloc, &self.fields)?,
            controls: copy_of(alloc, &self.controls)?,
            cwnd: self.cwnd,
            rate: self.rate,
            zero: self.zero,
        })
    }

    /// Makes this env equal to another of as many fields and control variables, without taking memory.
    pub(crate) fn copy_from(&mut self, other: &Env)
        requires fields { length self.old.fields ≡ length other.now.fields }
        requires controls { length self.old.controls ≡ length other.now.controls }
        ensures { self.new ≡ other.now }
    {
        overwrite(&mut self.fields, &other.fields);
        overwrite(&mut self.controls, &other.controls);
        self.cwnd = other.cwnd;
        self.rate = other.rate;
        self.zero = other.zero;
    }
}

/// Writes numbers over as many.
fn overwrite(numbers: &mut Numbers, others: &Numbers)
    requires { length numbers.old ≡ length others.now }
    ensures { numbers.new ≡ others.now }
{
    for (i, other) in others.as_slice().iter().enumerate() {
        numbers.set(i, *other);
    }
}

fn copy_of(alloc: Global, numbers: &Numbers) -> Result<Numbers, NoMemory>
    ensures { IfOk result (λ copy. copy ≡ numbers.now) }
{
    Ok(Numbers::from_vec(numbers.as_slice().to_vec(alloc)?))
}

/// The outcome of an acknowledgement.
#[derive(Clone, Copy, PartialEq, Eq)]
pub enum Mean {
    /// No report was asked for.
    Quiet,
    /// A report was made, with these fields in order of declaration.
    Reported(Values),
    /// A report was asked for, but there was no room for it.
    Held,
    /// An operation had no result. It has the place of its head atom.
    Fault(FaultKind, Place),
}

/// The outcome of an acknowledgement, without the fields of a report.
#[derive(Clone, Copy)]
pub enum Effect {
    /// No report was asked for.
    Quiet,
    /// A report was made.
    Reported,
    /// A report was asked for, but there was no room for it.
    Held,
    /// An operation had no result. It has the place of its head atom.
    Fault(FaultKind, Place),
}

/// Why a program isn't started.
#[derive(Clone, Copy, PartialEq, Eq, Debug)]
pub enum StartFault {
    /// The pair at this place of the values, counted from 0, is the first that names a control variable which
    /// the program doesn't have.
    BadRegister(u32),
    NoMemory(NoMemory),
}

impl From<AllocError> for StartFault {
    ghost use Rattle.portus_core.specs.declared.env.StartFault.TheVariants.{NoMemory};

    ghost from_gives = { λ _ e. e ≡ NoMemory no_memory };

    fn from(error: AllocError) -> Self {
        StartFault::NoMemory(NoMemory::from(error))
    }
}

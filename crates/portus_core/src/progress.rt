//! What the commands of one acknowledgement share beside the env: the locals, the asked report and the fall-through.
ghost use Rattle.std.specs.Prelude.{◌≡◌, IsTrue, length, slice_set};
ghost use Rattle.portus_core.specs.declared.env.Env.{Env};
ghost use Rattle.portus_core.specs.Programs.{term_of};
ghost use Rattle.portus_core.specs.Value.{read_of};
ghost use Rattle.portus_core.specs.Runnable.{has_place};
ghost use Rattle.portus_core.specs.Command.{with_written, written_where, value_in};
ghost use Rattle.portus_core.specs.Blocks.{before_blocks, at_block};
ghost use Rattle.portus_core.specs.Progress.{going_of, KeepsShape};

use crate::env::Env;
use crate::program::{Expr, Var};
use crate::value::{Fault, Locals, read, value};
use ccp_base::{Ack, Numbers};

/// What one command passes to the next within one acknowledgement.
#[derive(Drop)]
pub struct Progress {
    pub locals: Locals,
    /// Whether a report was asked for.
    pub asked: bool,
    /// Whether the body falls through.
    pub falls: bool,
}

impl Progress {
    /// Before the first block.
    pub fn begin() -> Self
        ensures { (env : Env) → going_of env result ≡ before_blocks env }
    {
        Progress {
            locals: [None; 8],
            asked: false,
            falls: false,
        }
    }

    /// Begins a block: the value of its condition.
    pub fn enter_block(&mut self, condition: &Expr, env: &Env, ack: &Ack) -> Result<u64, Fault>
        ensures value { result ≡ value_in (term_of condition.now) ack.entry.now (at_block (going_of env.now self.old)) }
        ensures going { going_of env.now self.new ≡ at_block (going_of env.now self.old) }
    {
        self.locals = [None; 8];
        self.falls = false;
        self.value(condition, env, ack)
    }

    /// The value of an expression.
    pub fn value(&self, expr: &Expr, env: &Env, ack: &Ack) -> Result<u64, Fault>
        ensures { result ≡ value_in (term_of expr.now) ack.entry.now (going_of env.now self.now) }
    {
        value(expr, env, &self.locals, ack)
    }

    /// The value of a name.
    pub fn read(&self, var: Var, env: &Env, ack: &Ack) -> u64
        ensures { result ≡ read_of var env.now (going_of env.now self.now).locals ack.entry.now }
    {
        read(var, env, &self.locals, ack)
    }

    /// Assigns the value; a variable that doesn't exist is ignored.
    pub fn write(&mut self, env: &mut Env, var: Var, value: u64)
        requires { IsTrue (has_place var) }
        ensures going { going_of env.new self.new ≡ with_written var value (going_of env.old self.old) }
        ensures shape { KeepsShape env.old env.new }
    {
        match var {
            Var::Field(i) => write_number(&mut env.fields, i, value),
            Var::Control(i) => write_number(&mut env.controls, i, value),
            Var::Local(i) => self.locals[i as usize] = Some(value),
            Var::Cwnd => env.cwnd = value,
            Var::Rate => env.rate = value,
            Var::Micros | Var::Prim(_) => {}
        }
    }

    pub fn write_where(&mut self, env: &mut Env, holds: bool, var: Var, value: u64)
        requires { IsTrue (has_place var) }
        ensures going { going_of env.new self.new ≡ written_where holds var value (going_of env.old self.old) }
        ensures shape { KeepsShape env.old env.new }
    {
        if holds {
            self.write(env, var, value);
        }
    }
}

fn write_number(numbers: &mut Numbers, i: u32, value: u64)
    ensures exact { numbers.new ≡ slice_set numbers.old i value }
    ensures long { length numbers.new ≡ length numbers.old }
{
    if (i as usize) < numbers.len() {
        numbers.set(i as usize, value);
    }
}

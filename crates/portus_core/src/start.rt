//! The start of a program's epoch: declared values first, then the values of the change in order.
ghost use Rattle.std.specs.Prelude.{◌≡◌, ◌↔◌, ℕ, ◌<◌, IfOk, IfSome, Some, Err, length, map};
ghost use Rattle.portus_core.specs.declared.program.Decl.{Decl};
ghost use Rattle.portus_core.specs.ProgramForm.{form_of};
ghost use Rattle.portus_core.specs.OneAcknowledgement.{IsEnvOf};
ghost use Rattle.portus_core.specs.Epoch.{with_value, with_values, declared_env, epoch_start};

use crate::env::{Env, StartFault};
use crate::program::{Decl, Program};
use ccp_base::{FieldReg, Fields, Numbers};
use std::alloc::{AllocError, Global};

impl Program {
    /// The env at the start of an epoch: each name has its declared value, and then the values are written in
    /// order. `cwnd` is in bytes, `rate` in bytes a second; `now` is the time of the flow's last acknowledgement
    /// in microseconds, 0 before the first, and becomes time zero.
    pub fn start(
        &self,
        alloc: Global,
        values: &Fields,
        cwnd: u64,
        rate: u64,
        now: u64,
    ) -> Result<Env, StartFault>
        ensures started { IfOk result (λ env. epoch_start (form_of self.now) values.now cwnd rate now ≡ Ok env) }
        ensures shape { IfOk result (λ env. IsEnvOf (form_of self.now) env) }

        // A register that doesn't exist is refused before memory is taken.
        ensures refused { let meant = epoch_start (form_of self.now) values.now cwnd rate now in
            (i : ℕ) → (result ≡ Err (StartFault.BadRegister i)) ↔ (meant ≡ Err (StartFault.BadRegister i)) }
    {
        if let Some(i) = values.first_bad(self.controls.len()) {
            return Err(StartFault::BadRegister(i));
        }
        let mut env = self.declared_env(alloc, cwnd, rate, now)?;
        write_all(&mut env, values);
        Ok(env)
    }

    /// Every name with its declared value.
    fn declared_env(&self, alloc: Global, cwnd: u64, rate: u64, now: u64) -> Result<Env, AllocError>
        ensures { IfOk result (λ env. env ≡ declared_env (form_of self.now) cwnd rate now) }
    {
        Ok(Env {
            fields: declared_values(alloc, &self.fields)?,
            controls: declared_values(alloc, &self.controls)?,
            cwnd,
            rate,
            zero: now,
        })
    }
}

fn declared_values(alloc: Global, decls: &[Decl]) -> Result<Numbers, AllocError>
    ensures { IfOk result (λ values. values ≡ map (λ (decl : Decl). decl.start) decls.now) }
{
    let values: Vec<u64> = decls.iter().map(|decl| decl.start).collect(alloc)?;
    Ok(Numbers::from_vec(values))
}

/// Writes the values in order; a control variable that doesn't exist is ignored.
fn write_all(env: &mut Env, values: &Fields)
    ensures { env.new ≡ with_values values.now env.old }
{
    for (reg, value) in values.as_slice() {
        write(env, *reg, *value);
    }
}

fn write(env: &mut Env, reg: FieldReg, value: u64)
    ensures { env.new ≡ with_value reg value env.old }
{
    match reg {
        FieldReg::Cwnd => env.cwnd = value,
        FieldReg::Rate => env.rate = value,
        FieldReg::Control(i) => {
            if usize::from(i) < env.controls.len() {
                env.controls.set(usize::from(i), value);
            }
        }
    }
}

//! The meaning of an acknowledgement for a program: its blocks run, and a report is made or held if asked for.
ghost use Rattle.std.specs.Prelude.{◌≡◌, ◌<◌, ◌≤◌, IfOk, Ok, length, slice_set, if◌then◌else◌};
ghost use Rattle.ccp_base.specs.Limits.{most_fields};
ghost use Rattle.portus_core.specs.ProgramForm.{form_of};
ghost use Rattle.portus_core.specs.OneAcknowledgement.{IsEnvOf, reset, mean_with, answered, one_of};

use crate::blocks::blocks;
use crate::env::{Effect, Env, Mean};
use crate::program::{Decl, Program};
use crate::progress::Progress;
use ccp_base::{Ack, NoMemory, Numbers, Values};
use std::alloc::Global;

impl Program {
    /// The outcome of one acknowledgement, and the env after it. `room` says whether there is room for a report.
    pub fn mean(
        &self,
        alloc: Global,
        env: &Env,
        ack: &Ack,
        room: bool,
    ) -> Result<(Mean, Env), NoMemory>
        requires { IsEnvOf (form_of self.now) env.now }
        ensures exact { IfOk result (λ answer. answer ≡ one_of (form_of self.now) env.now ack.entry.now room) }
        ensures shape { IfOk result (λ answer. IsEnvOf (form_of self.now) answer.1) }
    {
        let mut after = env.copy(alloc)?;
        let mut spare = env.copy(alloc)?;
        let effect = self.run(&mut after, &mut spare, ack, room);
        Ok((mean_of(effect, &spare.fields), after))
    }

    /// Runs one acknowledgement in the env itself. `room` says whether there is room for a report. `spare`, another env
    /// of the program, is overwritten: after a report it has the report's fields, in order of declaration.
    pub fn run(&self, env: &mut Env, spare: &mut Env, ack: &Ack, room: bool) -> Effect
        requires env { IsEnvOf (form_of self.now) env.old }
        requires spare { IsEnvOf (form_of self.now) spare.old }
        ensures exact { (mean_with spare.new.fields result, env.new)
            ≡ one_of (form_of self.now) env.old ack.entry.now room }
        ensures env { IsEnvOf (form_of self.now) env.new }
        ensures spare { IsEnvOf (form_of self.now) spare.new }
    {
        spare.copy_from(env);
        let mut progress = Progress::begin();
        match blocks(&self.blocks, ack, env, &mut progress) {
            Ok(()) => self.finish(env, spare, progress.asked, room),
            Err((kind, place)) => {
                env.copy_from(spare);
                Effect::Fault(kind, place)
            }
        }
    }

    /// Makes or holds the report that was asked for, after the last block's work.
    fn finish(&self, env: &mut Env, spare: &mut Env, asked: bool, room: bool) -> Effect
        requires env { IsEnvOf (form_of self.now) env.old }
        requires spare { IsEnvOf (form_of self.now) spare.old }
        ensures exact { (mean_with spare.new.fields result, env.new) ≡ answered (form_of self.now) asked room env.old }
        ensures env { IsEnvOf (form_of self.now) env.new }
        ensures spare { IsEnvOf (form_of self.now) spare.new }
    {
        if !asked {
            return Effect::Quiet;
        }
        if !room {
            return Effect::Held;
        }
        spare.copy_from(env);
        reset(&self.fields, &mut env.fields);
        reset(&self.controls, &mut env.controls);
        Effect::Reported
    }
}

/// The outcome with this effect; `fields` are those of a report.
fn mean_of(effect: Effect, fields: &Numbers) -> Mean
    requires { length fields.now ≤ most_fields }
    ensures { result ≡ mean_with fields.now effect }
{
    match effect {
        Effect::Quiet => Mean::Quiet,
        Effect::Reported => Mean::Reported(Values::from_slice(fields.as_slice())),
        Effect::Held => Mean::Held,
        Effect::Fault(kind, place) => Mean::Fault(kind, place),
    }
}

/// Gives each volatile name its declared value again.
fn reset(decls: &[Decl], values: &mut Numbers)
    requires { length values.old ≡ length decls.now }
    ensures exact { values.new ≡ reset decls.now values.old }
    ensures long { length values.new ≡ length values.old }
{
    for (i, decl) in decls.iter().enumerate() {
        reset_at(values, i, decl);
    }
}

fn reset_at(values: &mut Numbers, i: usize, decl: &Decl)
    requires { i < length values.old }
    ensures exact { values.new ≡ (if decl.now.volatile then slice_set values.old i decl.now.start else values.old) }
    ensures long { length values.new ≡ length values.old }
{
    if decl.volatile {
        values.set(i, decl.start);
    }
}

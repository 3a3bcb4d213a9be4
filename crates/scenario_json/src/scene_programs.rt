//! The programs of a scenario: the built-in ones, and those that it names and that are built from texts.
ghost use Rattle.std.specs.Prelude.{◌≡◌, ◌≢◌, ◌≤◌, ◌<◌, ◌+◌, ◌++◌, ◌∷◌, [], IfOk, IfErr, OnOk, Ok, Err, length};
ghost use Rattle.ccp_base.specs.Outside.{no_memory};
ghost use Rattle.serde_json.specs.View.{view, members_view};
ghost use Rattle.serde_json.specs.Events.{members_len};
ghost use Rattle.ccp_base.specs.Limits.{most_named_programs};
ghost use Rattle.portus_core.specs.ProgramForm.{form_of};
ghost use Rattle.agent_core.specs.Kinds.{built_in_count};
ghost use Rattle.portus_build.specs.Builtins.{builtins, builtin_text};
ghost use Rattle.portus_build.specs.declared.fault.BuildFault.TheVariants as build_fault;
ghost use Rattle.scenario_json.specs.Cases.{AreNumberedFrom};
ghost use Rattle.portus_build.specs.TextWalk.{program_of};
ghost use Rattle.scene_core.specs.CompiledPrograms.{IsCompiled, AreCompiled};
ghost use Rattle.scenario_json.specs.ScenePrograms.{named_program, programs_from, programs_in};
ghost use Rattle.reg_compiler.specs.Sources.{sources_of};
ghost use Rattle.scenario_json.specs.ScenePrograms.{built_in, built_ins, names_of};
ghost use Rattle.scenario_json.specs.Readers.{Gives};

use agent_core::BUILT_INS;
use ccp_base::{Name, Names, NoMemory, Sequence};
use portus_build::{BuildFault, build, builtin};
use reg_compiler::{Built, Builts};
use scene_faults::SceneFault;
use scene_members::{Key, named_text};
use serde_json::{Map, Value};
use std::alloc::Global;

/// A program under its name.
#[derive(Drop)]
pub(crate) struct NamedProgram {
    pub name: Name,
    pub built: Built,
}

/// All programs of a scenario with their numbers, and the names of those that it names.
#[derive(Drop)]
pub(crate) struct SceneProgramList {
    pub names: Names,
    pub builts: Builts,
}

/// What a text is built into, a program or its first refusal.
fn build_text(alloc: Global, text: &[u8]) -> Result<Built, BuildFault>
    ensures ok { IfOk result (λ b. program_of text.now ≡ Ok (form_of b.program)) }
    ensures compiled { IfOk result IsCompiled }
    ensures err { IfErr result (λ e. e ≢ build_fault.NoMemory no_memory → program_of text.now ≡ Err e) }
{
    build(alloc, text)
}

/// A built-in program. Its text is one of a program, so it is never refused.
#[tactic(auto, using(portus_build::proofs::BuiltinLemmas::never_refused))]
fn built_in(alloc: Global, number: u32) -> Result<Built, NoMemory>
    requires { number < length builtins }
    ensures form { IfOk result (λ b.
        built_in number (program_of (builtin_text number)) ≡ (number, form_of b.program) ∷ []) }
    ensures compiled { IfOk result IsCompiled }
{
    match build_text(alloc, builtin(number)) {
        Ok(built) => Ok(built),
        Err(BuildFault::NoMemory(error)) => Err(error),
        Err(_) => unreachable!(),
    }
}

/// Puts the built-in programs into an empty list.
fn put_built_ins(alloc: Global, builts: &mut Builts) -> Result<(), NoMemory>
    requires { builts.old ≡ [] }
    ensures forms { OnOk result (sources_of builts.new ≡ built_ins) }
    ensures numbered { OnOk result (AreNumberedFrom 0 builts.new) }
    ensures compiled { OnOk result (AreCompiled builts.new) }
    ensures count { OnOk result (length builts.new ≡ built_in_count) }
{
    let mut number = 0;
    while number < BUILT_INS {
        builts.push((number, built_in(alloc, number)?))?;
        number += 1;
    }
    Ok(())
}

/// The built-in programs.
pub(crate) fn built_ins(alloc: Global) -> Result<Builts, NoMemory>
    ensures forms { IfOk result (λ builts. sources_of builts ≡ built_ins) }
    ensures numbered { IfOk result (AreNumberedFrom 0) }
    ensures compiled { IfOk result AreCompiled }
    ensures count { IfOk result (λ builts. length builts ≡ built_in_count) }
{
    let mut builts = Sequence::new(alloc);
    put_built_ins(alloc, &mut builts)?;
    Ok(builts)
}

fn named_program(alloc: Global, name: &str, value: &Value) -> Result<NamedProgram, SceneFault>
    ensures walk { Gives (λ p. form_of p.built.program) result (named_program name.now (view value.now)) }
    ensures compiled { IfOk result (λ p. IsCompiled p.built) }
    ensures name { IfOk result (λ p. p.name ≡ name.now) }
{
    let named = named_text(alloc, Key::Programs, name, value)?;
    match build_text(alloc, named.text.as_bytes()) {
        Ok(built) => Ok(NamedProgram {
            name: named.name,
            built,
        }),
        Err(BuildFault::NoMemory(error)) => Err(SceneFault::NoMemory(error)),
        Err(fault) => Err(SceneFault::Program(named.name, fault)),
    }
}

/// Puts the programs of these members, and their names, at the lists' ends.
fn put_programs(
    alloc: Global,
    names: &mut Names,
    builts: &mut Builts,
    members: &Map<String, Value>,
) -> Result<(), SceneFault>
    requires few { length names.old + members_len (members_view members.now.entries) ≤ most_named_programs }
    requires numbered { AreNumberedFrom 0 builts.old }
    requires compiled { AreCompiled builts.old }
    requires count { length builts.old ≡ length names.old + built_in_count }
    ensures walk { Gives (λ _. sources_of builts.new) result
        (programs_from (sources_of builts.old) (members_view members.now.entries)) }
    ensures names { OnOk result (names.new ≡ names.old ++ names_of (members_view members.now.entries)) }
    ensures numbered { OnOk result (AreNumberedFrom 0 builts.new) }
    ensures compiled { OnOk result (AreCompiled builts.new) }
    ensures count { OnOk result (length builts.new ≡ length names.new + built_in_count) }
    ensures few { OnOk result (length names.new ≤ most_named_programs) }
{
    for (name, value) in members.iter() {
        let NamedProgram { name, built } = named_program(alloc, name.as_str(), value)?;
        let number = builts.len() as u32;
        // The program goes first, so that no later exit drops it.
        builts.push((number, built))?;
        names.push(name)?;
    }
    Ok(())
}

/// All programs of a scenario that names these.
pub(crate) fn programs_in(
    alloc: Global,
    members: &Map<String, Value>,
) -> Result<SceneProgramList, SceneFault>
    requires { members_len (members_view members.now.entries) ≤ most_named_programs }
    ensures walk { Gives (λ p. sources_of p.builts) result (programs_in (members_view members.now.entries)) }
    ensures names { IfOk result (λ p. p.names ≡ names_of (members_view members.now.entries)) }
    ensures numbered { IfOk result (λ p. AreNumberedFrom 0 p.builts) }
    ensures compiled { IfOk result (λ p. AreCompiled p.builts) }
    ensures count { IfOk result (λ p. length p.builts ≡ length p.names + built_in_count) }
    ensures few { IfOk result (λ p. length p.names ≤ most_named_programs) }
{
    let mut names = Sequence::new(alloc);
    let mut builts = built_ins(alloc)?;
    put_programs(alloc, &mut names, &mut builts, members)?;
    Ok(SceneProgramList { names, builts })
}

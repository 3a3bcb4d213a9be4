//! The further slots of a machine.
ghost use Rattle.std.specs.Prelude.{◌≡◌};
ghost use Rattle.fold_machine.specs.MachineState.{fresh_machine};

use ccp_base::Fields;
use code_verifier::verify;
use fold_machine::Machine;
use reg_code::{Checked, Code, Sequence};
use slot_pool::Slots;
use std::alloc::Global;
use std::test::Fail;

/// A code without registers, events and instructions.
fn empty_code(alloc: Global) -> Result<Checked, Fail> {
    let code = Code::new(
        alloc,
        Sequence::new(alloc),
        Sequence::new(alloc),
        Sequence::new(alloc),
        Sequence::new(alloc),
    )?;
    Ok(verify(code).ok().ok_or("refused")?)
}

/// Whether 160 words are all 0.
fn are_blank(words: &[u64]) -> bool {
    words.len() == 160 && words.iter().all(|word| *word == 0)
}

/// Whether the one further slot is blank, no second one is there, and what is written to it stays when a code is
/// started. The window stays too.
fn keeps_a_slot(machine: &mut Machine, code: &Checked) -> Result<bool, Fail>
    requires { machine.old ≡ fresh_machine 5 0 1 }
{
    let slot = machine.take_slot()?;
    if !are_blank(machine.slot(&slot)) || machine.take_slot().is_ok() {
        return Ok(false);
    }
    machine.set_slot(&slot, 0, 9);
    let started = machine.start(code, &Fields::new(), 0);
    let is_kept = started.is_ok() && machine.slot(&slot).first() == Some(&9);
    Ok(is_kept && machine.cwnd() == 5)
}

/// The same of a machine and a code, which it drops.
fn has_kept_a_slot(mut machine: Machine, code: Checked) -> Result<bool, Fail>
    requires { machine ≡ fresh_machine 5 0 1 }
{
    let kept = keeps_a_slot(&mut machine, &code);
    drop(code);
    drop(machine);
    kept
}

#[test]
fn a_start_leaves_a_further_slot(rt: HostRuntime) -> Result<(), Fail> {
    let code = empty_code(rt.alloc())?;
    let machine = Machine::roomy(rt.alloc(), 5, 0, 1)?;
    assert!(rt; has_kept_a_slot(machine, code)?);
    Ok(())
}

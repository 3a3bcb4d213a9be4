//! Starts that the plain evaluator refuses.
use crate::texts::program;
use ccp_base::{FieldReg, Fields};
use portus_core::{Program, StartFault};
use std::alloc::Global;
use std::test::Fail;

/// Why a start with values for these control variables is refused; None if it isn't.
fn refusal(alloc: Global, program: &Program, controls: &[u8]) -> Option<StartFault> {
    let mut values = Fields::new();
    for control in controls {
        put_value(&mut values, *control);
    }
    match program.start(alloc, &values, 10, 20, 30) {
        Ok(_) => None,
        Err(fault) => Some(fault),
    }
}

/// Puts a value for a control variable at the end, if there is room.
fn put_value(values: &mut Fields, control: u8) {
    if values.len() < 66 {
        values.push(FieldReg::Control(control), 6);
    }
}

/// Whether a program with one control variable takes a value for it, and refuses one for a second one.
fn refuses_a_second(alloc: Global, program: &Program) -> bool {
    let second = refusal(alloc, program, &[0, 1]);
    refusal(alloc, program, &[0]).is_none() && second == Some(StartFault::BadRegister(1))
}

/// The same of a program that is dropped then.
fn has_refused_a_second(alloc: Global, program: Program) -> bool {
    let refused = refuses_a_second(alloc, &program);
    drop(program);
    refused
}

#[test]
fn values_of_other_registers_are_refused(rt: HostRuntime) -> Result<(), Fail> {
    let program = program(rt.alloc(), b"(def (Report (volatile x 5)) (y 5))")?;
    assert!(rt; has_refused_a_second(rt.alloc(), program));
    Ok(())
}

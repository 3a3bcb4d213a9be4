//! A case's lines are taken off the front of a text, if the text begins with them.
ghost use Rattle.std.specs.Prelude.{◌≡◌, ◌++◌, IfOk, OnOk, map};
ghost use Rattle.flow_core.specs.LiveText.{fault_lines, flow_line};
ghost use Rattle.reg_compiler.specs.Sources.{sources_of};
ghost use Rattle.source_flow.specs.SourceAccounts.{account_in, failure_of};
ghost use Rattle.run_audit.specs.Fronts.{IsLeftAfter};
ghost use Rattle.run_audit.specs.PartLeft.{body_text};

use crate::fronts::text_after;
use ccp_base::{Bytes, NoMemory};
use flow_core::Case;
use live_lines::{FlowPart, PlacedFaults, put_flow_body, put_flow_line};
use reg_compiler::Built;
use report_lines::put_fault_line;
use source_flow::{FlowAccount, SourceFault};
use std::alloc::Global;

/// What follows the first line of a case's part; None exactly if the text doesn't begin with that line.
pub fn strip_flow<'a>(
    alloc: Global,
    text: &'a [u8],
    case: &Case,
) -> Result<Option<&'a [u8]>, NoMemory>
    ensures { IfOk result (IsLeftAfter (flow_line case.now.flow case.now.name case.now.agent) text.now) }
{
    let mut line = Bytes::new(alloc);
    put_flow_line(&mut line, case.flow, &case.name, &case.agent)?;
    Ok(text_after(text, line.as_slice()))
}

/// What follows the lines of an account after its flow's first line; None exactly if the text doesn't begin with
/// them.
pub fn strip_body<'a>(
    alloc: Global,
    text: &'a [u8],
    programs: &[(u32, Built)],
    account: &FlowAccount,
) -> Result<Option<&'a [u8]>, NoMemory>
    ensures { IfOk result (IsLeftAfter (body_text (sources_of programs.now) (account_in account.now)) text.now) }
{
    let mut body = Bytes::new(alloc);
    put_body(&mut body, programs, account)?;
    Ok(text_after(text, body.as_slice()))
}

/// Appends the lines of an account after its flow's first line.
fn put_body(
    text: &mut Bytes,
    programs: &[(u32, Built)],
    account: &FlowAccount,
) -> Result<(), NoMemory>
    ensures { OnOk result (text.new ≡ text.old ++ body_text (sources_of programs.now) (account_in account.now)) }
{
    let part = FlowPart {
        epochs: account.epochs.as_slice(),
        tickets: account.tickets.as_slice(),
        held: account.held,
        program: account.program,
        end: &account.end,
    };
    let faults = SourceFaults {
        faults: account.faults.as_slice(),
    };
    put_flow_body(text, programs, &part, &faults)
}

/// The faults of an account, each with its place.
#[derive(Clone, Copy)]
struct SourceFaults<'a> {
    faults: &'a [SourceFault],
}

impl<'a> PlacedFaults for SourceFaults<'a> {
    ghost use Rattle.std.specs.Prelude.{map};
    ghost use Rattle.source_flow.specs.SourceAccounts.{failure_of};

    ghost failures = { λ account. map failure_of account.faults.now };

    fn put(&self, text: &mut Bytes) -> Result<(), NoMemory> {
        put_faults(text, self.faults)
    }

    fn count(&self) -> usize {
        self.faults.len()
    }
}

fn put_faults(text: &mut Bytes, faults: &[SourceFault]) -> Result<(), NoMemory>
    ensures { OnOk result (text.new ≡ text.old ++ fault_lines (map failure_of faults.now)) }
{
    let mut left = faults;
    while let Some((fault, rest)) = left.split_first() {
        put_fault_line(text, fault.epoch, fault.at, fault.kind, fault.place)?;
        left = rest;
    }
    Ok(())
}

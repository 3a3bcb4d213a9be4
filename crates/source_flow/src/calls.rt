//! The account of a case's flow after a word, by the meaning of its programs' sources.
ghost use Rattle.std.specs.Prelude.{IfOk};
ghost use Rattle.source_flow.specs.SourceAccounts.{flow_by, IsAccountAfter};
ghost use Rattle.source_flow.specs.Sourced.{IsSourced};

use crate::flow_account::FlowAccount;
use crate::source_case::{SourceCase, built_at};
use crate::walk::account_over;
use ccp_base::NoMemory;
use flow_core::{Case, Letter};
use reg_compiler::Builts;
use std::alloc::Global;

/// The account of a case's flow after a word, by the meaning of the sources of its programs; None if and only if the
/// word isn't legal or isn't complete. Each program that the case's roles name must be among these, and the role's code
/// must simulate it.
pub fn account(
    alloc: Global,
    case: &Case,
    programs: &Builts,
    word: &[Letter],
) -> Result<Option<FlowAccount>, NoMemory>
    requires { IsSourced programs.now case.now }
    ensures { IfOk result (IsAccountAfter (flow_by programs.now case.now) case.now.link word.now) }
{
    let Some(ss) = built_at(programs.as_slice(), case.ss.role.number) else {
        unreachable!()
    };
    let Some(ca) = built_at(programs.as_slice(), case.ca.role.number) else {
        unreachable!()
    };
    let source = SourceCase {
        case,
        ss: &ss.program,
        ca: &ca.program,
    };
    let found = account_over(alloc, &source, word)?;
    Ok(found)
}

//! What a text leaves after a case's part, if it begins with that of a legal and complete word.
ghost use Rattle.std.specs.Prelude.{◌≡◌, IfOk};
ghost use Rattle.reg_compiler.specs.Sources.{sources_of};
ghost use Rattle.source_flow.specs.Sourced.{IsSourced};
ghost use Rattle.run_audit.specs.Fronts.{bytes_found};
ghost use Rattle.run_audit.specs.PartLeft.{part_left};

use crate::forced_word::forced_word;
use crate::lines::{strip_body, strip_flow};
use crate::read_marks::read_marks;
use ccp_base::NoMemory;
use flow_core::Case;
use reg_compiler::Builts;
use source_flow::calls::account;
use std::alloc::Global;

/// What of a text is left after a case's part; None exactly if the text doesn't begin with the part of a legal and
/// complete word.
pub fn part_left<'a>(
    alloc: Global,
    programs: &Builts,
    case: &Case,
    text: &'a [u8],
) -> Result<Option<&'a [u8]>, NoMemory>
    requires { IsSourced programs.now case.now }
    ensures { IfOk result (λ left. bytes_found left ≡ part_left (sources_of programs.now) case.now text.now) }
{
    let Some(body) = strip_flow(alloc, text, case)? else {
        return Ok(None);
    };
    let marks = read_marks(alloc, body)?;
    let Some(word) = forced_word(alloc, case.acks, marks.as_slice())? else {
        return Ok(None);
    };
    let Some(account) = account(alloc, case, programs, word.as_slice())? else {
        return Ok(None);
    };
    strip_body(alloc, body, programs.as_slice(), &account)
}

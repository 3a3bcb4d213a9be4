//! The one word that the letters of a flow's tickets leave possible, if there is one.
ghost use Rattle.std.specs.Prelude.{◌≡◌, IfOk, OnOk};
ghost use Rattle.run_audit.specs.ForcedWord.{forced_word, with_acks};

use crate::mark::Mark;
use ccp_base::NoMemory;
use flow_core::{Letter, Words};
use std::alloc::Global;

/// The word of a flow with this many acknowledgements that the letters of its tickets force; None exactly if their
/// counts fall or pass that number.
pub fn forced_word(alloc: Global, acks: u32, marks: &[Mark]) -> Result<Option<Words>, NoMemory>
    ensures { IfOk result (λ word. word ≡ forced_word acks marks.now) }
{
    let all = u64::from(acks);
    let mut letters = Words::new(alloc);
    let mut at: u64 = 0;
    let mut left = marks;
    while let Some((mark, rest)) = left.split_first() {
        if mark.at < at || mark.at > all {
            return Ok(None);
        }
        put_acks(&mut letters, mark.at - at)?;
        letters.push(mark.letter)?;
        at = mark.at;
        left = rest;
    }
    put_acks(&mut letters, all - at)?;
    Ok(Some(letters))
}

/// Appends this many acknowledgements to letters.
fn put_acks(letters: &mut Words, count: u64) -> Result<(), NoMemory>
    ensures { OnOk result (letters.new ≡ with_acks letters.old count) }
{
    for _ in 0..count {
        letters.push(Letter::A)?;
    }
    Ok(())
}

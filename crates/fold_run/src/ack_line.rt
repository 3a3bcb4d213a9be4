//! How one line below the separator is read: it is blank, gives an acknowledgement, or is refused.
ghost use Rattle.std.specs.Prelude.{◌≡◌, ◌≤◌, ◌<◌, ◌∷◌, if◌then◌else◌, IfSome, IfNone, Some, None, length};
ghost use Rattle.std.specs.List.{list_all};
ghost use Rattle.ccp_base.specs.declared.parts.Separator.TheVariants.{Blank};
ghost use Rattle.ccp_base.specs.Limits.{primitive_count};
ghost use Rattle.ccp_base.specs.Parts.{separates, parts_of};
ghost use Rattle.fold_run.specs.FirstPart.{first_of, after_separator};
ghost use Rattle.fold_run.specs.AckLine.{with_one_word, with_each_word, some_if, no_values, ends_blank};
ghost use Rattle.fold_run.specs.AckLine.{begins_word, line_told, read_ack_line};

use crate::line_number::read_number;
use crate::line_values::LineValues;
use crate::names::{Followers, LINE_BEGIN};
use ccp_base::Separator;

/// What a line below the separator says.
#[derive(Clone, Copy)]
pub enum LineKind {
    /// The line is blank.
    Nothing,
    /// The line gives an acknowledgement.
    Given,
    /// The line is no acknowledgement.
    Refused,
}

#[tactic(auto, using(crate::proofs::LineLemmas::line_begun, crate::proofs::LineLemmas::line_unbegun))]
/// Reads a line that has no LF and no CR at its end. If it gives an acknowledgement, `values` are the line's values.
pub fn read_line(values: &mut LineValues, followers: &mut Followers, line: &[u8]) -> LineKind
    requires { values.old ≡ no_values }
    ensures { line_told result values.new ≡ read_ack_line line.now }
{
    if !begins_word(line) {
        return if is_blank(line) {
            LineKind::Nothing
        } else {
            LineKind::Refused
        };
    }
    if ends_blank(line) || !read_words(values, followers, line) {
        return LineKind::Refused;
    }
    LineKind::Given
}

fn is_blank(line: &[u8]) -> bool
    ensures { result ≡ list_all (separates Separator.Blank) line.now }
{
    line.iter().all(|byte| Separator::Blank.is(*byte))
}

/// Whether a line has a first byte that is no blank.
fn begins_word(line: &[u8]) -> bool
    ensures { result ≡ begins_word line.now }
{
    match line.first() {
        None => false,
        Some(byte) => !Separator::Blank.is(*byte),
    }
}

fn ends_blank(line: &[u8]) -> bool
    ensures { result ≡ ends_blank line.now }
{
    match line.last() {
        None => false,
        Some(byte) => Separator::Blank.is(*byte),
    }
}

#[tactic(auto, using(crate::proofs::FirstWord::words_step, crate::proofs::FirstWord::after_shorter))]
/// Takes the values of a line's words. Returns whether each word gives a value that no earlier one gave.
fn read_words(values: &mut LineValues, followers: &mut Followers, line: &[u8]) -> bool
    ensures { some_if result values.new ≡ with_each_word (Some values.old) (parts_of Blank line.now) }
{
    let mut left = line;
    let mut before = LINE_BEGIN;
    while !left.is_empty() {
        match read_word(values, followers, &mut before, left) {
            None => return false,
            Some(after) => left = after,
        }
    }
    followers.end_line(before);
    true
}

/// Takes the value of the word at the front of a text, and gives what follows the word; None exactly if the word gives
/// no value, or one that an earlier word gave. `before` is the number of the value of the last word.
fn read_word<'a>(
    values: &mut LineValues,
    followers: &mut Followers,
    before: &mut usize,
    text: &'a [u8],
) -> Option<&'a [u8]>
    requires some { 0 < length text.now }
    requires before { before.old ≤ primitive_count }
    ensures word { IfSome result (λ after. with_one_word values.old (first_of Blank text.now) ≡ Some values.new) }
    ensures after { IfSome result (λ after. after.now ≡ after_separator Blank text.now) }
    ensures wrong { IfNone result (with_one_word values.old (first_of Blank text.now) ≡ None) }
    ensures before { before.new ≤ primitive_count }
{
    if Separator::Blank.is(text[0]) {
        return Some(&text[1..]);
    }
    let Some(item) = followers.item(*before, text) else {
        return None;
    };
    *before = item.number;
    let Some((value, after)) = read_number(item.rest) else {
        return None;
    };
    if values.take(item.number, value) {
        Some(after)
    } else {
        None
    }
}

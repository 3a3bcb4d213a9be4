//! The primitive that an item of a line names. The name that followed last time is tried first.
ghost use Rattle.std.specs.Prelude.{◌≡◌, ◌≤◌, ◌<◌, ◌∷◌, ◌++◌, IfSome, IfNone, Some, None, false, length, slice_index};
ghost use Rattle.ccp_base.specs.declared.parts.Separator.TheVariants.{Blank};
ghost use Rattle.ccp_base.specs.Limits.{primitive_count};
ghost use Rattle.ccp_base.specs.Parts.{separates};
ghost use Rattle.fold_run.specs.Items.{primitive_word, GivesNumeral, GivesNothing};

use crate::front::after_front;
use ccp_base::{PRIMITIVE_NAMES, PRIMITIVES, value_named};
use memchr::memchr;

/// The place of a line's begin, and of its end, among the numbers of names: after those of the primitives.
pub const LINE_BEGIN: usize = PRIMITIVES as usize;

/// The places after which a name stands: each name, and a line's begin.
const PLACES: usize = LINE_BEGIN + 1;

/// An item `name=numeral` of a line, read up to its numeral.
#[derive(Clone, Copy)]
pub struct Item<'a> {
    /// The number of the primitive with its name.
    pub number: usize,
    /// The line from the numeral on.
    pub rest: &'a [u8],
}

/// Which name, or the line's end, followed each name last time, and a line's begin: lines mostly name the same values
/// in the same order, so the name that is tried first is mostly the right one.
#[derive(Clone, Copy)]
pub struct Followers {
    numbers: [usize; PLACES],
}

impl Followers {
    /// No line was read.
    pub fn new() -> Followers {
        Followers {
            numbers: [0; PLACES],
        }
    }

    /// The item at the front of a text, after one of the primitive with the number `before` or at a line's begin; None
    /// exactly if the first word gives no primitive a value.
    #[inline(always)]
    pub fn item<'a>(&mut self, before: usize, text: &'a [u8]) -> Option<Item<'a>>
        requires before { before ≤ primitive_count }
        requires some { 0 < length text.now }
        requires word { separates Blank (slice_index text.now 0) ≡ false }
        ensures gives { IfSome result (λ item. GivesNumeral text.now item.number item.rest.now) }
        ensures below { IfSome result (λ item. item.number < primitive_count) }
        ensures none { IfNone result (GivesNothing text.now) }
    {
        let expected = self.numbers[before];
        if let Some(rest) = after_name(text, expected) {
            return Some(Item {
                number: expected,
                rest,
            });
        }
        let item = searched_item(text)?;
        self.numbers[before] = item.number;
        Some(item)
    }

    /// Notes that a line ended after the name with this number.
    pub fn end_line(&mut self, last: usize)
        requires { last ≤ primitive_count }
    {
        self.numbers[last] = LINE_BEGIN;
    }

    /// The number of the name that a line is expected to have alone; None if it is expected to have more.
    #[inline(always)]
    pub fn alone(&self) -> Option<usize> {
        let first = self.numbers[LINE_BEGIN];
        if first < LINE_BEGIN && self.numbers[first] == LINE_BEGIN {
            Some(first)
        } else {
            None
        }
    }
}

/// The item at the front of a text, by a search for its equals sign and for its name.
#[inline(never)]
fn searched_item(text: &[u8]) -> Option<Item<'_>>
    requires some { 0 < length text.now }
    requires word { separates Blank (slice_index text.now 0) ≡ false }
    ensures gives { IfSome result (λ item. GivesNumeral text.now item.number item.rest.now) }
    ensures below { IfSome result (λ item. item.number < primitive_count) }
    ensures none { IfNone result (GivesNothing text.now) }
{
    let Some(at) = memchr(b'=', text) else {
        return None;
    };
    let Some(number) = value_named(&text[..at]) else {
        return None;
    };
    Some(Item {
        number,
        rest: &text[at + 1..],
    })
}

/// Tries the name of the primitive with a number, by an arm for each number: with a name that the compiler knows the
/// test takes a few machine instructions.
macro_rules! after_name_of {
    ($text:ident, $number:ident, $($known:literal)*) => {
        match $number {
            $($known => after_known($text, $known),)*
            _ => None,
        }
    };
}

/// What follows the name of the primitive with this number and an equals sign, if a text begins with them. There are
/// more arms than primitives, so that the table alone says how many there are.
#[inline(always)]
fn after_name(text: &[u8], number: usize) -> Option<&[u8]>
    ensures after { IfSome result (λ rest. text.now ≡ primitive_word number ++ 61 ∷ rest.now) }
    ensures below { IfSome result (λ _. number < primitive_count) }
{
    after_name_of!(text, number, 0 1 2 3 4 5 6 7 8 9 10 11 12 13 14 15 16 17 18 19 20 21 22 23)
}

// A function of its own: its clauses are those of an arm above, and each arm calls it with a number that is known.
/// What follows the name of a primitive and an equals sign, if a text begins with them.
#[inline(always)]
pub fn after_known(text: &[u8], number: usize) -> Option<&[u8]>
    ensures after { IfSome result (λ rest. text.now ≡ primitive_word number ++ 61 ∷ rest.now) }
    ensures below { IfSome result (λ _. number < primitive_count) }
{
    after_equals(text, PRIMITIVE_NAMES.get(number)?.1)
}

/// What follows a name and an equals sign, if a text begins with them.
#[inline(always)]
fn after_equals<'a>(text: &'a [u8], name: &[u8]) -> Option<&'a [u8]>
    ensures { IfSome result (λ rest. text.now ≡ name.now ++ 61 ∷ rest.now) }
{
    // with one test of the text's length the compiler leaves out those of its parts
    if text.len() <= name.len() {
        return None;
    }
    let Some(behind) = after_front(text, name) else {
        return None;
    };
    match behind.split_first() {
        Some((first, rest)) if *first == b'=' => Some(rest),
        _ => None,
    }
}

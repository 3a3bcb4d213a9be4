//! The binary operations of the language and its code: their numbers, words, marks and results.
ghost use Rattle.std.specs.Prelude.{◌≡◌, Some};
ghost use Rattle.std.specs.List.{list_any};
ghost use Rattle.std.specs.Str.{bytes_eq};
ghost use Rattle.ccp_base.specs.Operations.{written_as, gives_truth, apply, first_where, operation_numbered};
ghost use Rattle.ccp_base.specs.Operations.{is_written, operator_of, is_operation_mark};

use crate::ack::{bool_number, is_true};
use crate::arithmetic::{FaultKind, add, div, mul, sub};

/// A binary operation of the language and of its code.
#[derive(Clone, Copy, PartialEq, Eq)]
pub enum Op2 {
    /// The sum, if it is a value.
    Add,
    /// The difference, if it is a value.
    Sub,
    /// The product, if it is a value.
    Mul,
    /// The quotient, cut to a whole number, if the divisor isn't 0.
    Div,
    /// The larger one.
    Max,
    /// The smaller one.
    Min,
    /// 1 if the left one is larger, else 0.
    Gt,
    /// 1 if the left one is smaller, else 0.
    Lt,
    /// 1 if both are equal, else 0.
    Eq,
    /// 1 if neither is 0, else 0.
    And,
    /// 1 if at least one isn't 0, else 0.
    Or,
}

/// All operations.
const OPERATIONS: [Op2; 11] = [
    Op2::Add,
    Op2::Sub,
    Op2::Mul,
    Op2::Div,
    Op2::Max,
    Op2::Min,
    Op2::Gt,
    Op2::Lt,
    Op2::Eq,
    Op2::And,
    Op2::Or,
];

/// How an operation is written.
#[derive(Clone, Copy)]
struct Notation {
    /// In frames.
    number: u8,
    /// In a listing and in programs.
    word: &'static str,
    /// In programs; of `max` and `min` it is their word.
    mark: &'static str,
    /// Whether its result is a Bool.
    truth: bool,
}

impl Op2 {
    fn notation(self) -> Notation
        ensures number { result.number ≡ (written_as self).number }
        ensures word { result.word.now ≡ (written_as self).word }
        ensures mark { result.mark.now ≡ (written_as self).mark }
        ensures truth { result.truth ≡ gives_truth self }
    {
        match self {
            Op2::Add => row_of(0, "add", "+", false),
            Op2::Sub => row_of(1, "sub", "-", false),
            Op2::Mul => row_of(2, "mul", "*", false),
            Op2::Div => row_of(3, "div", "/", false),
            Op2::Max => row_of(4, "max", "max", false),
            Op2::Min => row_of(5, "min", "min", false),
            Op2::Gt => row_of(6, "gt", ">", true),
            Op2::Lt => row_of(7, "lt", "<", true),
            Op2::Eq => row_of(8, "eq", "==", true),
            Op2::And => row_of(9, "and", "&&", true),
            Op2::Or => row_of(10, "or", "||", true),
        }
    }

    /// Its number in frames.
    pub fn number(self) -> u8
        ensures { result ≡ (written_as self).number }
    {
        self.notation().number
    }

    /// Its name, which a program may write as well.
    pub fn word(self) -> &'static str
        ensures { result.now ≡ (written_as self).word }
    {
        self.notation().word
    }

    /// Whether its result is a Bool.
    pub fn gives_truth(self) -> bool
        ensures { result ≡ gives_truth self }
    {
        self.notation().truth
    }

    /// The operation on two values, or why it has no result.
    #[inline(always)]
    pub fn apply(self, a: u64, b: u64) -> Result<u64, FaultKind>
        ensures { result ≡ apply self a b }
    {
        let value = match self {
            Op2::Add => add(a, b)?,
            Op2::Sub => sub(a, b)?,
            Op2::Mul => mul(a, b)?,
            Op2::Div => div(a, b)?,
            Op2::Max => a.max(b),
            Op2::Min => a.min(b),
            Op2::Gt => bool_number(a > b),
            Op2::Lt => bool_number(a < b),
            Op2::Eq => bool_number(a == b),
            Op2::And => bool_number(is_true(a) && is_true(b)),
            Op2::Or => bool_number(is_true(a) || is_true(b)),
        };
        Ok(value)
    }

    /// Whether a program writes it as this text.
    fn is_written(self, text: &[u8]) -> bool
        ensures { result ≡ is_written text.now self }
    {
        let notation = self.notation();
        text == notation.mark.as_bytes() || text == notation.word.as_bytes()
    }

    /// Whether this text is its mark.
    fn is_marked(self, text: &[u8]) -> bool
        ensures { result ≡ bytes_eq text.now (written_as self).mark }
    {
        text == self.notation().mark.as_bytes()
    }
}

fn row_of(number: u8, word: &'static str, mark: &'static str, truth: bool) -> Notation
    ensures number { result.number ≡ number }
    ensures word { result.word.now ≡ word.now }
    ensures mark { result.mark.now ≡ mark.now }
    ensures truth { result.truth ≡ truth }
{
    Notation {
        number,
        word,
        mark,
        truth,
    }
}

/// The operation with a number in frames; None if no operation has it.
#[inline(always)]
pub fn operation_numbered(number: u8) -> Option<Op2>
    ensures { result ≡ operation_numbered number }
{
    match number {
        0 => Some(Op2::Add),
        1 => Some(Op2::Sub),
        2 => Some(Op2::Mul),
        3 => Some(Op2::Div),
        4 => Some(Op2::Max),
        5 => Some(Op2::Min),
        6 => Some(Op2::Gt),
        7 => Some(Op2::Lt),
        8 => Some(Op2::Eq),
        9 => Some(Op2::And),
        10 => Some(Op2::Or),
        _ => None,
    }
}

/// The operation that a program writes as this text, which is its mark or its word; None if there is no such operation.
pub fn operator_of(text: &[u8]) -> Option<Op2>
    ensures { result ≡ operator_of text.now }
{
    first_written(&OPERATIONS, text)
}

fn first_written(operations: &[Op2], text: &[u8]) -> Option<Op2>
    ensures { result ≡ first_where (is_written text.now) operations.now }
{
    let mut left = operations;
    while let Some((operation, rest)) = left.split_first() {
        if operation.is_written(text) {
            return Some(*operation);
        }
        left = rest;
    }
    None
}

/// Whether the text is the mark of an operation.
pub fn is_operation_mark(text: &[u8]) -> bool
    ensures { result ≡ is_operation_mark text.now }
{
    are_marks(&OPERATIONS, text)
}

fn are_marks(operations: &[Op2], text: &[u8]) -> bool
    ensures { result ≡ list_any (λ operation. bytes_eq text.now (written_as operation).mark) operations.now }
{
    operations.iter().any(|operation| operation.is_marked(text))
}

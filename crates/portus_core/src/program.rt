//! Programs as trees: variables, expressions, commands, declarations and blocks.
ghost use Rattle.std.specs.Prelude.{IsTrue};
ghost use Rattle.portus_core.specs.Programs.{form_over};
ghost use Rattle.portus_core.specs.ValidPrograms.{is_declared, is_valid};

use ccp_base::{Name, Op2, Place};

/// What a name of a program means; a declared one by its number in order of declaration.
#[derive(Clone, Copy)]
pub enum Var {
    Field(u32),
    Control(u32),
    /// A local of a block's body, numbered by its first assignment there.
    Local(u32),
    /// The congestion window, in bytes.
    Cwnd,
    /// The pacing rate, in bytes a second.
    Rate,
    /// The time since time zero, in microseconds.
    Micros,
    /// A primitive of the acknowledgement.
    Prim(u32),
}

/// An expression. An operation has the place of its head atom.
#[derive(Drop)]
pub enum Expr {
    Num(u64),
    Truth(bool),
    Var(Var),
    Pair(Op2, Place, Box<Expr>, Box<Expr>),
}

/// A command of a block's body. `if`, `!if` and `ewma` have the place of their head atom.
#[derive(Drop)]
pub enum Cmd {
    /// Assigns a value.
    Set(Var, Expr),
    /// Evaluates a condition and a value, and assigns the value if the condition is true.
    SetIf(Place, Var, Expr, Expr),
    /// Evaluates a condition and a value, and assigns the value if the condition is false.
    SetUnless(Place, Var, Expr, Expr),
    /// Moves a number towards a value, with the old number's weight in tenths.
    Ewma(Place, Var, u64, Expr),
    /// Makes the acknowledgement's time the time zero.
    ZeroMicros,
    /// Asks for a report.
    Report,
    /// Lets the blocks after this one run too.
    Fall,
}

/// The declaration of a field or a control variable.
#[derive(Clone, Copy)]
pub struct Decl {
    pub name: Name,
    /// Whether a report resets it to its declared value.
    pub volatile: bool,
    /// The declared value; a Bool is 0 or 1.
    pub start: u64,
    /// Whether it is a Bool.
    pub truth: bool,
}

/// A block: its body runs if its condition is true.
#[derive(Drop)]
pub struct Block {
    pub condition: Expr,
    pub body: Vec<Cmd>,
    /// How many locals the body has.
    pub locals: u32,
}

/// A program: what it declares, in order, and its blocks. Its names are words that may be declared, none twice in a
/// class, a Bool is declared as 0 or 1, its blocks are well scoped and typed, and all is within the limits of 64
/// fields, 64 control variables, 64 blocks and 8 locals a body.
#[derive(Drop)]
pub struct Program {
    pub fields: Vec<Decl>,
    pub controls: Vec<Decl>,
    pub blocks: Vec<Block>,
    ghost declared: { IsTrue (is_declared (form_over fields.items controls.items blocks.items)) },
    ghost valid: { IsTrue (is_valid (form_over fields.items controls.items blocks.items)) },
}

//! Which temporaries and locals have a value so far in an event, as its instructions write them.
ghost use Rattle.std.specs.Prelude.{◌≡◌, IsTrue, slice_set, true};
ghost use Rattle.reg_code.specs.AcceptedCode.{no_marks, marked, writes, with_target, is_there};
ghost use Rattle.code_verifier.specs.Marked.{has_mark, marks_of};

use reg_code::{Instr, Op, Reg, Sizes};

/// Which temporaries and locals were written so far in an event, each by its number.
#[derive(Drop)]
pub struct Tables {
    pub temps: [bool; 8],
    pub locals: [bool; 8],
}

/// No marks.
pub fn no_tables() -> Tables
    ensures { marks_of result ≡ no_marks }
{
    Tables {
        temps: [false; 8],
        locals: [false; 8],
    }
}

/// Whether a place has a mark; past the table's end none has.
pub fn has_mark(table: &[bool; 8], i: u8) -> bool
    ensures { result ≡ has_mark table.now i }
{
    let i = usize::from(i);
    if i < table.len() { table[i] } else { false }
}

/// Marks the target of an instruction that always writes it.
pub fn mark(tables: &mut Tables, sizes: Sizes, instr: &Instr)
    requires { IsTrue (is_there sizes instr.now.to) }
    ensures { marks_of tables.new ≡ marked (marks_of tables.old) instr.now }
{
    if writes(instr.op) {
        mark_target(tables, sizes, instr.to);
    }
}

fn mark_target(tables: &mut Tables, sizes: Sizes, to: Reg)
    requires { IsTrue (is_there sizes to) }
    ensures { marks_of tables.new ≡ with_target (marks_of tables.old) to }
{
    match to {
        Reg::Temp(i) => tables.temps[usize::from(i)] = true,
        Reg::Local(i) => tables.locals[usize::from(i)] = true,
        _ => {}
    }
}

/// Whether an operation always writes its target.
pub fn writes(op: Op) -> bool
    ensures { result ≡ writes op }
{
    !matches!(op, Op::If | Op::NotIf)
}

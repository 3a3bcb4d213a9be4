//! How many instructions a program counts, by its operations, commands, conditions and assignments.
ghost use Rattle.std.specs.Prelude.{◌≡◌, ◌+◌, map};
ghost use Rattle.portus_core.specs.Programs.{term_of, action_of, part_of};
ghost use Rattle.portus_core.specs.ProgramForm.{form_of};
ghost use Rattle.reg_compiler.specs.Counts.{term_count, action_count, body_count, parts_count, form_count};
ghost use Rattle.reg_compiler.specs.Refusal.{shown_count};

use portus_core::{Block, Cmd, Expr, Program};

/// How many instructions a program counts: one for each operation and each command, and one for each condition and
/// each plain assignment. It stops at 2^64 - 1.
pub fn instruction_count(program: &Program) -> u64
    ensures { result ≡ shown_count (form_count (form_of program.now)) }
{
    parts_count(&program.blocks)
}

fn parts_count(blocks: &[Block]) -> u64
    ensures { result ≡ shown_count (parts_count (map part_of blocks.now)) }
{
    let mut total: u64 = 0;
    for block in blocks {
        total = total
            .saturating_add(assigned_count(&block.condition))
            .saturating_add(body_count(&block.body));
    }
    total
}

fn body_count(cmds: &[Cmd]) -> u64
    ensures { result ≡ shown_count (body_count (map action_of cmds.now)) }
{
    let mut total: u64 = 0;
    for cmd in cmds {
        total = total.saturating_add(action_count(cmd));
    }
    total
}

fn action_count(cmd: &Cmd) -> u64
    ensures { result ≡ shown_count (action_count (action_of cmd.now)) }
{
    match cmd {
        Cmd::Set(_, expr) | Cmd::Ewma(_, _, _, expr) => assigned_count(expr),
        Cmd::SetIf(_, _, condition, expr) | Cmd::SetUnless(_, _, condition, expr) => {
            assigned_count(condition).saturating_add(count(expr))
        }
        Cmd::ZeroMicros | Cmd::Report | Cmd::Fall => 1,
    }
}

/// One more than the operations of an expression.
fn assigned_count(expr: &Expr) -> u64
    ensures { result ≡ shown_count (1 + term_count (term_of expr.now)) }
{
    count(expr).saturating_add(1)
}

/// The operations of an expression.
#[tactic(auto, using(portus_core::specs::Programs::terms))]
fn count(expr: &Expr) -> u64
    ensures { result ≡ shown_count (term_count (term_of expr.now)) }
{
    match expr {
        Expr::Num(_) | Expr::Truth(_) | Expr::Var(_) => 0,
        Expr::Pair(_, _, left, right) => {
            count(left).saturating_add(count(right)).saturating_add(1)
        }
    }
}

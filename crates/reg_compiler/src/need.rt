//! How many temporaries expressions need, and the first expression that needs too many.
ghost use Rattle.std.specs.Prelude.{◌≡◌, ◌+◌, max, min, map};
ghost use Rattle.std.specs.Option.{option_or};
ghost use Rattle.ccp_base.specs.Limits.{most_temps};
ghost use Rattle.portus_core.specs.Programs.{term_of, action_of, part_of};
ghost use Rattle.portus_core.specs.ProgramForm.{form_of};
ghost use Rattle.reg_compiler.specs.Needs.{kept_temporaries, need_of, need_of_both, action_need, body_need, parts_need, form_need, deep_at, deep_term, deep_action, deep_body, deep_block, deep_parts, deep_form};

use ccp_base::Place;
use portus_core::{Block, Cmd, Expr, Program};
use reg_code::TEMPS;

/// A need above the number of temporaries; this one stands for every such need.
const TOO_MANY: u32 = TEMPS as u32 + 1;

/// The greatest need of a program's expressions, 0 if it has none, and 9 if it is above 8. The need of an expression is
/// the number of temporaries that it takes.
pub fn greatest_need(program: &Program) -> u32
    ensures { result ≡ min (form_need (form_of program.now)) (most_temps + 1) }
{
    parts_need(&program.blocks)
}

fn parts_need(blocks: &[Block]) -> u32
    ensures { result ≡ min (parts_need (map part_of blocks.now)) (most_temps + 1) }
{
    let mut greatest = 0;
    for block in blocks {
        greatest = greatest
            .max(need(&block.condition))
            .max(body_need(&block.body));
    }
    greatest
}

fn body_need(cmds: &[Cmd]) -> u32
    ensures { result ≡ min (body_need (map action_of cmds.now)) (most_temps + 1) }
{
    let mut greatest = 0;
    for cmd in cmds {
        greatest = greatest.max(action_need(cmd));
    }
    greatest
}

fn action_need(cmd: &Cmd) -> u32
    ensures { result ≡ min (action_need (action_of cmd.now)) (most_temps + 1) }
{
    match cmd {
        Cmd::Set(_, expr) | Cmd::Ewma(_, _, _, expr) => need(expr),
        Cmd::SetIf(_, _, condition, expr) | Cmd::SetUnless(_, _, condition, expr) => {
            need_of_both(condition, expr)
        }
        Cmd::ZeroMicros | Cmd::Report | Cmd::Fall => 0,
    }
}

/// The need of an expression.
#[tactic(auto, using(portus_core::specs::Programs::terms))]
fn need(expr: &Expr) -> u32
    ensures { result ≡ min (need_of (term_of expr.now)) (most_temps + 1) }
{
    match expr {
        Expr::Num(_) | Expr::Truth(_) | Expr::Var(_) => 0,
        Expr::Pair(_, _, left, right) => {
            need(left)
                .max(need(right) + kept_temporaries(left))
                .clamp(1, TOO_MANY)
        }
    }
}

/// The need of two expressions, if the first one's value is kept while the second is computed.
fn need_of_both(left: &Expr, right: &Expr) -> u32
    ensures { result ≡ min (need_of_both (term_of left.now) (term_of right.now)) (most_temps + 1) }
{
    need(left)
        .max(need(right) + kept_temporaries(left))
        .min(TOO_MANY)
}

/// The temporary that an expression other than a leaf takes while the one after it is computed.
#[tactic(auto, using(portus_core::specs::Programs::terms))]
fn kept_temporaries(expr: &Expr) -> u32
    ensures { result ≡ kept_temporaries (term_of expr.now) }
{
    match expr {
        Expr::Num(_) | Expr::Truth(_) | Expr::Var(_) => 0,
        Expr::Pair(..) => 1,
    }
}

/// The head atom of the first expression of a program, in the order of the text, that needs more than 8 temporaries.
pub fn too_deep_place(program: &Program) -> Option<Place>
    ensures { result ≡ deep_form (form_of program.now) }
{
    for block in &program.blocks {
        if let Some(place) = deep_block(block) {
            return Some(place);
        }
    }
    None
}

fn deep_block(block: &Block) -> Option<Place>
    ensures { result ≡ deep_block (term_of block.now.condition) (map action_of block.now.body.items) }
{
    deep_expr(&block.condition).or(deep_body(&block.body))
}

fn deep_body(cmds: &[Cmd]) -> Option<Place>
    ensures { result ≡ deep_body (map action_of cmds.now) }
{
    for cmd in cmds {
        if let Some(place) = deep_cmd(cmd) {
            return Some(place);
        }
    }
    None
}

fn deep_cmd(cmd: &Cmd) -> Option<Place>
    ensures { result ≡ deep_action (action_of cmd.now) }
{
    match cmd {
        Cmd::Set(_, expr) => deep_expr(expr),
        Cmd::SetIf(place, ..) | Cmd::SetUnless(place, ..) | Cmd::Ewma(place, ..) => {
            deep_at(action_need(cmd), *place)
        }
        Cmd::ZeroMicros | Cmd::Report | Cmd::Fall => None,
    }
}

#[tactic(auto, using(portus_core::specs::Programs::terms))]
fn deep_expr(expr: &Expr) -> Option<Place>
    ensures { result ≡ deep_term (term_of expr.now) }
{
    match expr {
        Expr::Num(_) | Expr::Truth(_) | Expr::Var(_) => None,
        Expr::Pair(_, place, ..) => deep_at(need(expr), *place),
    }
}

/// The place of an expression that needs too many temporaries.
fn deep_at(need: u32, place: Place) -> Option<Place>
    ensures { result ≡ deep_at need place }
{
    if need > u32::from(TEMPS) {
        Some(place)
    } else {
        None
    }
}

//! How the forms after the first become blocks, each with its condition, commands and locals.
ghost use Rattle.std.specs.Prelude.{◌≡◌, ◌≢◌, IfOk, IfErr, Ok, Err, [], length};
ghost use Rattle.portus_core.specs.Trees.{node_of, nodes_of};
ghost use Rattle.portus_core.specs.Programs.{term_of};
ghost use Rattle.scope_types.specs.ProgramWalk.{without_locals, condition_walk, inner_walk, block_walk};
ghost use Rattle.scope_types.specs.ProgramWalk.{form_walk, blocks_walk};
ghost use Rattle.scope_types.specs.Scope.{scope_of};
ghost use Rattle.scope_types.specs.WalkResults.{EndsWalk, GivesBlock, GivesBlocks};

use crate::assignment::check_kind;
use crate::command::commands;
use crate::cut::{Cut, cut_first, place_of};
use crate::expression::expression;
use crate::fault::{ScopeFault, What};
use crate::names::Names;
use ccp_base::{Place, Sequence, same_bytes};
use portus_core::{Block, Expr, Tree};
use std::alloc::Global;

/// The most blocks of a program.
const BLOCKS: usize = 64;

/// Leaves the names that a block begins with.
fn drop_locals(alloc: Global, names: &mut Names)
    ensures { scope_of names.new ≡ without_locals (scope_of names.old) }
{
    names.locals = Sequence::new(alloc);
}

/// The condition of a block.
fn condition(alloc: Global, names: &Names, tree: &Tree) -> Result<Expr, ScopeFault>
    ensures ok { IfOk result (λ e. condition_walk (scope_of names.now) (node_of tree.now) ≡ Ok (term_of e)) }
    ensures err { IfErr result (EndsWalk (condition_walk (scope_of names.now) (node_of tree.now))) }
{
    let expr = expression(alloc, names, tree)?;
    check_kind(names, true, place_of(tree), &expr)?;
    Ok(expr)
}

/// A block that begins with these names: its condition, then its commands.
fn inner(alloc: Global, names: &mut Names, first: &Tree, rest: &[Tree]) -> Result<Block, ScopeFault>
    ensures ok { let walk = inner_walk (scope_of names.old) (node_of first.now) (nodes_of rest.now) in
        IfOk result (GivesBlock walk names.new) }
    ensures err { IfErr result (EndsWalk (inner_walk (scope_of names.old) (node_of first.now) (nodes_of rest.now))) }
{
    let condition = condition(alloc, names, first)?;
    let body = commands(alloc, names, rest)?;
    let locals = names.locals.len() as u32;
    Ok(Block {
        condition,
        body,
        locals,
    })
}

/// A block.
fn block(alloc: Global, names: &mut Names, at: Place, parts: &[Tree]) -> Result<Block, ScopeFault>
    ensures ok { IfOk result (GivesBlock (block_walk (scope_of names.old) at (nodes_of parts.now)) names.new) }
    ensures err { IfErr result (EndsWalk (block_walk (scope_of names.old) at (nodes_of parts.now))) }
{
    match cut_first(parts) {
        Cut::Nothing => Err(ScopeFault::Misplaced(at)),
        Cut::First(first, rest) => {
            drop_locals(alloc, names);
            inner(alloc, names, first, rest)
        }
    }
}

/// A form after the first, with `count` blocks before it.
fn form(alloc: Global, names: &mut Names, count: usize, tree: &Tree) -> Result<Block, ScopeFault>
    ensures ok { IfOk result (GivesBlock (form_walk (scope_of names.old) count (node_of tree.now)) names.new) }
    ensures err { IfErr result (EndsWalk (form_walk (scope_of names.old) count (node_of tree.now))) }
{
    if let Tree::List(at, parts) = tree {
        if let Cut::First(Tree::Word(_, w), rest) = cut_first(parts.as_slice()) {
            if !same_bytes(w.as_slice(), b"when") {
                return Err(ScopeFault::Misplaced(*at));
            }
            if count >= BLOCKS {
                return Err(ScopeFault::TooMany(*at, What::Blocks));
            }
            return block(alloc, names, *at, rest);
        }
    }
    Err(ScopeFault::Misplaced(place_of(tree)))
}

/// The forms after the first.
pub(crate) fn later_forms(
    alloc: Global,
    names: &mut Names,
    trees: &[Tree],
) -> Result<Vec<Block>, ScopeFault>
    ensures ok { let walk = blocks_walk (scope_of names.old) [] (nodes_of trees.now) in
        IfOk result (λ blocks. GivesBlocks walk names.new blocks.items) }
    ensures err { IfErr result (EndsWalk (blocks_walk (scope_of names.old) [] (nodes_of trees.now))) }
{
    let mut blocks = Vec::new(alloc);
    let mut rest = trees;
    while let Some((tree, later)) = rest.split_first() {
        let block = form(alloc, names, blocks.len(), tree)?;
        blocks.push(block)?;
        rest = later;
    }
    Ok(blocks)
}

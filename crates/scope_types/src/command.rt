//! How the commands of a block's body are scoped.
ghost use Rattle.std.specs.Prelude.{◌≡◌, ◌≢◌, IfOk, IfErr, Ok, Err, []};
ghost use Rattle.portus_core.specs.Trees.{node_of, nodes_of};
ghost use Rattle.scope_types.specs.CommandWalk.{command_walk, body_walk};
ghost use Rattle.scope_types.specs.Scope.{scope_of};
ghost use Rattle.scope_types.specs.WalkResults.{EndsWalk, GivesCommand, GivesCommands};

use crate::assignment::assignment;
use crate::cut::place_of;
use crate::fault::ScopeFault;
use crate::names::Names;
use ccp_base::same_bytes;
use portus_core::{Cmd, Parts, Tree, take_apart};
use std::alloc::Global;

/// A command.
fn command(alloc: Global, names: &mut Names, tree: &Tree) -> Result<Cmd, ScopeFault>
    ensures ok { IfOk result (GivesCommand (command_walk (scope_of names.old) (node_of tree.now)) names.new) }
    ensures err { IfErr result (EndsWalk (command_walk (scope_of names.old) (node_of tree.now))) }
{
    let Tree::List(at, parts) = tree else {
        return Err(ScopeFault::Misplaced(place_of(tree)));
    };
    match take_apart(parts.as_slice()) {
        Parts::One(Tree::Word(_, w)) => {
            if same_bytes(w.as_slice(), b"report") {
                Ok(Cmd::Report)
            } else if same_bytes(w.as_slice(), b"fallthrough") {
                Ok(Cmd::Fall)
            } else {
                Err(ScopeFault::Misplaced(*at))
            }
        }
        Parts::Three(Tree::Word(_, w), target, value) => {
            if same_bytes(w.as_slice(), b":=") || same_bytes(w.as_slice(), b"bind") {
                assignment(alloc, names, target, value)
            } else {
                Err(ScopeFault::Misplaced(*at))
            }
        }
        _ => Err(ScopeFault::Misplaced(*at)),
    }
}

/// The commands of a body.
pub(crate) fn commands(
    alloc: Global,
    names: &mut Names,
    trees: &[Tree],
) -> Result<Vec<Cmd>, ScopeFault>
    ensures ok { let walk = body_walk (scope_of names.old) [] (nodes_of trees.now) in
        IfOk result (λ commands. GivesCommands walk names.new commands.items) }
    ensures err { IfErr result (EndsWalk (body_walk (scope_of names.old) [] (nodes_of trees.now))) }
{
    let mut commands = Vec::new(alloc);
    let mut rest = trees;
    while let Some((tree, later)) = rest.split_first() {
        let command = command(alloc, names, tree)?;
        commands.push(command)?;
        rest = later;
    }
    Ok(commands)
}

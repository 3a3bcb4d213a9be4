//! A list's first part apart from the rest, and the place of a part.
ghost use Rattle.std.specs.Prelude.{◌≡◌};
ghost use Rattle.portus_core.specs.Trees.{node_of, nodes_of};
ghost use Rattle.scope_types.specs.Cuts.{node_place, CutsInto};

use ccp_base::Place;
use portus_core::Tree;

/// A list's first part, and the parts after it.
#[derive(Clone, Copy)]
pub(crate) enum Cut<'a> {
    Nothing,
    First(&'a Tree, &'a [Tree]),
}

/// Separates a list's first part from the rest.
pub(crate) fn cut_first(parts: &[Tree]) -> Cut<'_>
    ensures { CutsInto (nodes_of parts.now) result }
{
    match parts.split_first() {
        None => Cut::Nothing,
        Some((first, rest)) => Cut::First(first, rest),
    }
}

/// The place of a part of a text.
pub(crate) fn place_of(tree: &Tree) -> Place
    ensures { result ≡ node_place (node_of tree.now) }
{
    match tree {
        Tree::Num(at, _) => *at,
        Tree::Word(at, _) => *at,
        Tree::List(at, _) => *at,
    }
}

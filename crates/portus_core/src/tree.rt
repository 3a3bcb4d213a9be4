//! Trees of a program's text, each with its place, and how a list is taken apart by the number of its parts.
ghost use Rattle.portus_core.specs.Trees.{nodes_of, SplitsInto};

use ccp_base::{Name, Place};

/// A part of a program's text: a numeral, a word or a list, each with its place.
#[derive(Drop)]
pub enum Tree {
    Num(Place, u64),
    Word(Place, Name),
    List(Place, Vec<Tree>),
}

/// A program's text as its forms.
#[derive(Drop)]
pub struct Source {
    pub forms: Vec<Tree>,
}

/// The parts of a list by their number: the rules of the language differ for none to three and for more.
#[derive(Clone, Copy)]
pub enum Parts<'a> {
    Nothing,
    One(&'a Tree),
    Two(&'a Tree, &'a Tree),
    Three(&'a Tree, &'a Tree, &'a Tree),
    Many,
}

/// The parts of a list by their number.
#[tactic(auto, using(crate::specs::Trees::many))]
pub fn take_apart(trees: &[Tree]) -> Parts<'_>
    ensures { SplitsInto (nodes_of trees.now) result }
{
    match trees {
        [] => Parts::Nothing,
        [one] => Parts::One(one),
        [one, two] => Parts::Two(one, two),
        [one, two, three] => Parts::Three(one, two, three),
        [_, _, _, _, ..] => Parts::Many,
    }
}

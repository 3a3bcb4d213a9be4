//! How the parts of `def` declare fields and control variables.
ghost use Rattle.std.specs.Prelude.{◌≡◌, ◌++◌, ◌∷◌, [], OnOk, IfErr, length};
ghost use Rattle.portus_core.specs.Trees.{node_of, nodes_of};
ghost use Rattle.portus_core.specs.Words.{has_dot, is_field_name, is_control_name};
ghost use Rattle.scope_types.specs.DeclarationWalk.{declaring_of, GivesDeclared};
ghost use Rattle.scope_types.specs.DeclarationWalk.{start_word, declared_start, declaration_walk};
ghost use Rattle.scope_types.specs.DeclarationWalk.{field_walk, control_walk, fields_walk, group_walk};
ghost use Rattle.scope_types.specs.DeclarationWalk.{control_part_walk, part_walk, parts_walk};
ghost use Rattle.scope_types.specs.Scope.{scope_of};
ghost use Rattle.scope_types.specs.WalkResults.{EndsWalk, GivesNames};

use crate::cut::{Cut, cut_first, place_of};
use crate::fault::{ScopeFault, What};
use crate::names::Names;
use crate::words::{is_field_use, is_primitive_use, is_reserved};
use ccp_base::{FIELDS, Place, same_bytes};
use portus_core::{Decl, Parts, Tree, is_name_shaped, take_apart};

/// The most control variables that a program declares.
const CONTROLS: usize = 64;

/// A declared value.
#[derive(Clone, Copy)]
pub(crate) struct Start {
    pub value: u64,
    /// Whether it is a Bool.
    pub truth: bool,
}

/// A declaration, with the place of its word.
#[derive(Clone, Copy)]
pub(crate) struct Declaration {
    pub at: Place,
    pub decl: Decl,
}

/// What the parts of `def` so far declare.
#[derive(Drop)]
pub(crate) struct Declared {
    pub names: Names,
    /// Whether a group of fields was among them.
    pub grouped: bool,
}

/// The value of a word in a declaration.
fn start_word(w: &[u8]) -> Option<Start>
    ensures { result ≡ start_word w.now }
{
    if same_bytes(w, b"true") {
        Some(Start {
            value: 1,
            truth: true,
        })
    } else if same_bytes(w, b"false") {
        Some(Start {
            value: 0,
            truth: true,
        })
    } else if same_bytes(w, b"+infinity") {
        Some(Start {
            value: u64::MAX,
            truth: false,
        })
    } else {
        None
    }
}

/// The value of a part in a declaration.
fn start_of(tree: &Tree) -> Option<Start>
    ensures { result ≡ declared_start (node_of tree.now) }
{
    match tree {
        Tree::Num(_, value) => Some(Start {
            value: *value,
            truth: false,
        }),
        Tree::Word(_, w) => start_word(w.as_slice()),
        Tree::List(_, _) => None,
    }
}

/// A declaration: a word and a value, or `volatile`, a word and a value.
fn declaration_of(tree: &Tree) -> Result<Declaration, ScopeFault>
    ensures { result ≡ declaration_walk (node_of tree.now) }
{
    let misplaced = ScopeFault::Misplaced(place_of(tree));
    let (volatile, at, name, value) = match tree {
        Tree::List(_, parts) => match take_apart(parts.as_slice()) {
            Parts::Two(Tree::Word(at, name), value) => (false, *at, *name, value),
            Parts::Three(Tree::Word(_, head), Tree::Word(at, name), value) => {
                if !same_bytes(head.as_slice(), b"volatile") {
                    return Err(misplaced);
                }
                (true, *at, *name, value)
            }
            _ => return Err(misplaced),
        },
        _ => return Err(misplaced),
    };
    let start = start_of(value).ok_or(misplaced)?;
    Ok(Declaration {
        at,
        decl: Decl {
            name,
            volatile,
            start: start.value,
            truth: start.truth,
        },
    })
}

/// Whether the word has a `.`.
fn has_dot(w: &[u8]) -> bool
    ensures { result ≡ has_dot w.now }
{
    w.iter().any(|c| *c == b'.')
}

/// Whether a field may have this word.
fn is_field_name(w: &[u8]) -> bool
    ensures { result ≡ is_field_name w.now }
{
    is_name_shaped(w)
        && !(has_dot(w)
            || same_bytes(w, b"volatile")
            || same_bytes(w, b"true")
            || same_bytes(w, b"false"))
}

/// Whether a control variable may have this word.
fn is_control_name(w: &[u8]) -> bool
    ensures { result ≡ is_control_name w.now }
{
    !(is_reserved(w) || is_field_use(w) || is_primitive_use(w))
}

/// One more field.
fn field(names: &mut Names, d: Declaration) -> Result<(), ScopeFault>
    ensures ok { OnOk result (GivesNames (field_walk (scope_of names.old) d) names.new) }
    ensures err { IfErr result (EndsWalk (field_walk (scope_of names.old) d)) }
{
    if !is_field_name(d.decl.name.as_slice()) {
        return Err(ScopeFault::Misplaced(d.at));
    }
    if names.fields.position(d.decl.name.as_slice()).is_some() {
        return Err(ScopeFault::Twice(d.at));
    }
    if names.fields.len() >= FIELDS as usize {
        return Err(ScopeFault::TooMany(d.at, What::Fields));
    }
    names.fields.push(d.decl)?;
    Ok(())
}

/// One more control variable.
fn control(names: &mut Names, d: Declaration) -> Result<(), ScopeFault>
    ensures ok { OnOk result (GivesNames (control_walk (scope_of names.old) d) names.new) }
    ensures err { IfErr result (EndsWalk (control_walk (scope_of names.old) d)) }
{
    if !is_control_name(d.decl.name.as_slice()) {
        return Err(ScopeFault::Misplaced(d.at));
    }
    if names.controls.position(d.decl.name.as_slice()).is_some() {
        return Err(ScopeFault::Twice(d.at));
    }
    if names.controls.len() >= CONTROLS {
        return Err(ScopeFault::TooMany(d.at, What::Controls));
    }
    names.controls.push(d.decl)?;
    Ok(())
}

/// The parts of the group of fields.
fn fields(names: &mut Names, parts: &[Tree]) -> Result<(), ScopeFault>
    ensures ok { OnOk result (GivesNames (fields_walk (scope_of names.old) (nodes_of parts.now)) names.new) }
    ensures err { IfErr result (EndsWalk (fields_walk (scope_of names.old) (nodes_of parts.now))) }
{
    let mut rest = parts;
    while let Some((part, later)) = rest.split_first() {
        field(names, declaration_of(part)?)?;
        rest = later;
    }
    Ok(())
}

/// The group of fields, of which there is one at most.
fn group(declared: &mut Declared, head: Place, parts: &[Tree]) -> Result<(), ScopeFault>
    ensures ok { let walk = group_walk (declaring_of declared.old) head (nodes_of parts.now) in
        OnOk result (GivesDeclared walk declared.new) }
    ensures err { IfErr result (EndsWalk (group_walk (declaring_of declared.old) head (nodes_of parts.now))) }
{
    if declared.grouped {
        return Err(ScopeFault::Twice(head));
    }
    fields(&mut declared.names, parts)?;
    declared.grouped = true;
    Ok(())
}

/// A part of `def` that declares a control variable.
fn control_part(declared: &mut Declared, tree: &Tree) -> Result<(), ScopeFault>
    ensures ok { let walk = control_part_walk (declaring_of declared.old) (node_of tree.now) in
        OnOk result (GivesDeclared walk declared.new) }
    ensures err { IfErr result (EndsWalk (control_part_walk (declaring_of declared.old) (node_of tree.now))) }
{
    control(&mut declared.names, declaration_of(tree)?)
}

/// A part of `def`.
fn part(declared: &mut Declared, tree: &Tree) -> Result<(), ScopeFault>
    ensures ok { let walk = part_walk (declaring_of declared.old) (node_of tree.now) in
        OnOk result (GivesDeclared walk declared.new) }
    ensures err { IfErr result (EndsWalk (part_walk (declaring_of declared.old) (node_of tree.now))) }
{
    match tree {
        Tree::List(_, parts) => match cut_first(parts.as_slice()) {
            Cut::First(Tree::Word(head, w), rest) => {
                if same_bytes(w.as_slice(), b"Report") {
                    group(declared, *head, rest)
                } else {
                    control_part(declared, tree)
                }
            }
            _ => control_part(declared, tree),
        },
        Tree::Num(_, _) => control_part(declared, tree),
        Tree::Word(_, _) => control_part(declared, tree),
    }
}

/// The parts of `def`.
pub(crate) fn parts(declared: &mut Declared, trees: &[Tree]) -> Result<(), ScopeFault>
    ensures ok { let walk = parts_walk (declaring_of declared.old) (nodes_of trees.now) in
        OnOk result (GivesDeclared walk declared.new) }
    ensures err { IfErr result (EndsWalk (parts_walk (declaring_of declared.old) (nodes_of trees.now))) }
{
    let mut rest = trees;
    while let Some((tree, later)) = rest.split_first() {
        part(declared, tree)?;
        rest = later;
    }
    Ok(())
}

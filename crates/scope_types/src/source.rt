//! The call `scope`: the program that a text's forms stand for, or their first refusal.
ghost use Rattle.std.specs.Prelude.{◌≡◌, ◌≢◌, IsTrue, OnOk, IfOk, IfErr, MatchResult, Ok, Err};
ghost use Rattle.ccp_base.specs.Outside.{no_memory};
ghost use Rattle.portus_core.specs.Trees.{node_of, nodes_of};
ghost use Rattle.portus_core.specs.Programs.{Form, form_over};
ghost use Rattle.portus_core.specs.ProgramForm.{form_of};
ghost use Rattle.portus_core.specs.ValidPrograms.{is_declared, is_valid};
ghost use Rattle.scope_types.specs.DeclarationWalk.{declaring_of};
ghost use Rattle.scope_types.specs.ProgramWalk.{nothing_declared, def_walk, source_walk};
ghost use Rattle.scope_types.specs.Scope.{scope_of};
ghost use Rattle.scope_types.specs.WellScoped.{IsScoped};
ghost use Rattle.scope_types.specs.Outcomes.{ScopesAs, IsRefused, IsSettled};
ghost use Rattle.scope_types.specs.WalkResults.{EndsWalk, GivesNames};

use crate::block::later_forms;
use crate::cut::{Cut, cut_first, place_of};
use crate::declaration::{Declared, parts};
use crate::declarations::Declarations;
use crate::fault::ScopeFault;
use crate::names::Names;
use ccp_base::{Place, Sequence, same_bytes};
use portus_core::{Block, Program, Source, Tree};
use std::alloc::{AllocError, Global};

/// The declarations before the first part of `def`: none.
fn nothing_declared(alloc: Global) -> Declared
    ensures { declaring_of result ≡ nothing_declared }
{
    Declared {
        names: Names {
            fields: Declarations::new(alloc),
            controls: Declarations::new(alloc),
            locals: Sequence::new(alloc),
        },
        grouped: false,
    }
}

/// The first form, which declares the names.
fn def(declared: &mut Declared, tree: &Tree) -> Result<(), ScopeFault>
    requires nothing { declaring_of declared.old ≡ nothing_declared }
    ensures ok { OnOk result (GivesNames (def_walk (node_of tree.now)) declared.new.names) }
    ensures err { IfErr result (EndsWalk (def_walk (node_of tree.now))) }
{
    if let Tree::List(_, items) = tree {
        if let Cut::First(Tree::Word(_, w), rest) = cut_first(items.as_slice()) {
            if same_bytes(w.as_slice(), b"def") {
                return parts(declared, rest);
            }
        }
    }
    Err(ScopeFault::Misplaced(place_of(tree)))
}

/// A program of valid parts.
fn program(alloc: Global, names: &Names, blocks: Vec<Block>) -> Result<Program, AllocError>
    requires declared { IsTrue (is_declared (form_over names.now.fields names.now.controls blocks.items)) }
    requires valid { IsTrue (is_valid (form_over names.now.fields names.now.controls blocks.items)) }
    ensures fields { IfOk result (λ p. p.fields.items ≡ names.now.fields) }
    ensures controls { IfOk result (λ p. p.controls.items ≡ names.now.controls) }
    ensures blocks { IfOk result (λ p. p.blocks.items ≡ blocks.items) }
{
    Ok(Program {
        fields: names.fields.to_vec(alloc)?,
        controls: names.controls.to_vec(alloc)?,
        blocks,
    })
}

// A function of its own: it has the declarations by reference, so that none of its exits drops them.
/// The program of a text's forms, or the first refusal in the order of the text. `declared` has no declarations yet.
fn scope_forms_over(
    alloc: Global,
    declared: &mut Declared,
    forms: &[Tree],
) -> Result<Program, ScopeFault>
    requires nothing { declaring_of declared.old ≡ nothing_declared }
    ensures ok { IfOk result (λ p. source_walk (nodes_of forms.now) ≡ Ok (form_of p)) }
    ensures err { IfErr result (EndsWalk (source_walk (nodes_of forms.now))) }
{
    let Cut::First(first, rest) = cut_first(forms) else {
        return Err(ScopeFault::Misplaced(Place { line: 1, column: 1 }));
    };
    def(declared, first)?;
    let blocks = later_forms(alloc, &mut declared.names, rest)?;
    Ok(program(alloc, &declared.names, blocks)?)
}

/// The program of a text's forms, or the first refusal in the order of the text.
fn scope_forms(alloc: Global, forms: &[Tree]) -> Result<Program, ScopeFault>
    ensures ok { IfOk result (λ p. source_walk (nodes_of forms.now) ≡ Ok (form_of p)) }
    ensures err { IfErr result (EndsWalk (source_walk (nodes_of forms.now))) }
{
    let mut declared = nothing_declared(alloc);
    scope_forms_over(alloc, &mut declared, forms)
}

/// The program of a text's forms, or the first refusal in the order of the text. If they are a program, the call can
/// fail only by running out of memory.
pub fn scope(alloc: Global, source: Source) -> Result<Program, ScopeFault>
    ensures found { IfOk result (λ p. IsScoped (nodes_of source.forms.items) (form_of p)) }
    ensures only { (form : Form) → IsScoped (nodes_of source.forms.items) form → ScopesAs result form }

    // The same as equations with the walk over the forms, which gives the order of the refusals.
    ensures gives { IfOk result (λ p. source_walk (nodes_of source.forms.items) ≡ Ok (form_of p)) }
    ensures refused { IfErr result (λ e. e ≢ ScopeFault.NoMemory no_memory → IsRefused (nodes_of source.forms.items) e) }

    // Forms have one program or one first refusal, and not both.
    ensures settled { IsSettled (nodes_of source.forms.items) }
{
    scope_forms(alloc, source.forms.as_slice())
}

//! The printed text of a source's forms, with one space between parts and a line for each form.
ghost use Rattle.std.specs.Prelude.{◌≡◌, ◌++◌, IfOk, OnOk};
ghost use Rattle.std.specs.Fmt.{decimal};
ghost use Rattle.portus_core.specs.Trees.{node_of, nodes_of};
ghost use Rattle.portus_core.specs.PrintedTree.{printed_of, printed_forms};

use crate::tree::{Source, Tree};
use ccp_base::{Bytes, NoMemory};
use std::alloc::Global;

/// The text of a source: lists with one space between their parts, numerals without leading zeros, and a line
/// feed after each form.
pub fn print_tree(alloc: Global, source: &Source) -> Result<Bytes, NoMemory>
    ensures { IfOk result (λ text. text ≡ printed_forms (nodes_of source.now.forms.items)) }
{
    let mut text = Bytes::new(alloc);
    for form in &source.forms {
        put_tree(alloc, &mut text, form)?;
        text.push(b'\n')?;
    }
    Ok(text)
}

fn put_tree(alloc: Global, text: &mut Bytes, tree: &Tree) -> Result<(), NoMemory>
    ensures { OnOk result (text.new ≡ text.old ++ printed_of (node_of tree.now)) }
{
    match tree {
        Tree::Num(_, value) => put_number(alloc, text, *value),
        Tree::Word(_, name) => put(text, name.as_slice()),
        Tree::List(_, parts) => {
            text.push(b'(')?;
            let mut gap: &[u8] = b"";
            for part in parts {
                put(text, gap)?;
                put_tree(alloc, text, part)?;
                gap = b" ";
            }
            text.push(b')')?;
            Ok(())
        }
    }
}

fn put_number(alloc: Global, text: &mut Bytes, value: u64) -> Result<(), NoMemory>
    ensures { OnOk result (text.new ≡ text.old ++ decimal value) }
{
    let digits = format!(in alloc; "{value}")?;
    put(text, digits.as_bytes())
}

fn put(text: &mut Bytes, bytes: &[u8]) -> Result<(), NoMemory>
    ensures { OnOk result (text.new ≡ text.old ++ bytes.now) }
{
    text.extend(bytes)?;
    Ok(())
}

//! How one token moves the parser: it opens a list, closes one, or adds an atom.
ghost use Rattle.std.specs.Prelude.{◌≡◌, IfOk, IfErr, Ok, [], length};
ghost use Rattle.portus_core.specs.Trees.{node_of};
ghost use Rattle.portus_parser.specs.Refusals.{is_opening, is_closing};
ghost use Rattle.portus_parser.specs.Readings.{opened_at, closed_over, put_in, reading_after, reading_of, EndsTurn};

use crate::atom::atom;
use crate::fault::ParseFault;
use crate::open_list::OpenList;
use ccp_base::{Place, same_bytes};
use portus_core::Tree;
use std::alloc::Global;

/// The most lists that may lie inside one another.
pub const DEPTH: usize = 64;

/// Opens a list: the parts so far are kept with it, and its own parts begin.
fn open(
    alloc: Global,
    open_lists: &mut Vec<OpenList>,
    parts: Vec<Tree>,
    place: Place,
) -> Result<Vec<Tree>, ParseFault>
    ensures ok { let reading = reading_of open_lists.old.items parts.items in
        IfOk result (λ own. opened_at place reading ≡ Ok (reading_of open_lists.new.items own.items)) }
    ensures err { IfErr result (EndsTurn (opened_at place (reading_of open_lists.old.items parts.items))) }
{
    if open_lists.len() >= DEPTH {
        return Err(ParseFault::Nesting(place));
    }
    open_lists.push(OpenList {
        place,
        before: parts,
    })?;
    Ok(Vec::new(alloc))
}

/// Closes the list that was opened last: it becomes a part of its own list.
fn close(
    open_lists: &mut Vec<OpenList>,
    parts: Vec<Tree>,
    place: Place,
) -> Result<Vec<Tree>, ParseFault>
    ensures ok { let reading = reading_of open_lists.old.items parts.items in
        IfOk result (λ own.
        closed_over place reading.opens reading.parts ≡ Ok (reading_of open_lists.new.items own.items)) }
    ensures err { let reading = reading_of open_lists.old.items parts.items in
        IfErr result (EndsTurn (closed_over place reading.opens reading.parts)) }
{
    match open_lists.pop() {
        Some(open_list) => {
            let OpenList {
                place: opened,
                mut before,
            } = open_list;
            before.push(Tree::List(opened, parts))?;
            Ok(before)
        }
        None => Err(ParseFault::Unexpected(place)),
    }
}

/// Appends an atom to the parts of the list that was opened last.
fn put(
    open_lists: &[OpenList],
    mut parts: Vec<Tree>,
    place: Place,
    text: &[u8],
) -> Result<Vec<Tree>, ParseFault>
    ensures ok { let reading = reading_of open_lists.now parts.items in
        IfOk result (λ own. put_in place text.now reading reading.opens ≡ Ok (reading_of open_lists.now own.items)) }
    ensures err { let reading = reading_of open_lists.now parts.items in
        IfErr result (EndsTurn (put_in place text.now reading reading.opens)) }
{
    if open_lists.is_empty() {
        return Err(ParseFault::Unexpected(place));
    }
    match atom(place, text) {
        Ok(tree) => {
            parts.push(tree)?;
            Ok(parts)
        }
        Err(fault) => Err(fault),
    }
}

/// Reads a token, given the open lists and the parts so far of the list that was opened last.
pub fn turn(
    alloc: Global,
    open_lists: &mut Vec<OpenList>,
    parts: Vec<Tree>,
    place: Place,
    text: &[u8],
) -> Result<Vec<Tree>, ParseFault>
    ensures ok { IfOk result (λ own.
        reading_after (reading_of open_lists.old.items parts.items) place text.now
        ≡ Ok (reading_of open_lists.new.items own.items)) }
    ensures err { IfErr result (EndsTurn (reading_after (reading_of open_lists.old.items parts.items) place text.now)) }
{
    if same_bytes(text, b"(") {
        open(alloc, open_lists, parts, place)
    } else if same_bytes(text, b")") {
        close(open_lists, parts, place)
    } else {
        put(open_lists.as_slice(), parts, place, text)
    }
}

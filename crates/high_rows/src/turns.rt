//! The letters of a flow with its link, and what tests look at of them. A test's steps are calls of functions that
//! assert one thing each.
ghost use Rattle.std.specs.Prelude.{◌≡◌, ◌<◌};
ghost use Rattle.flow_core.specs.Cells.{IsComplete};

use agent_core::Ticket;
use agent_core::calls::answer;
use ccp_base::Reply;
use flow_core::{Cell, Ended, TakeFault};
use fold_machine::{Acked, Steps};
use std::alloc::Global;
use std::marker::Brand;
use std::process::Abort;
use std::sync::ledger::{Blank, Ledger};
use std::test::Fail;

/// The outcome of the cell's next acknowledgement.
fn next(cell: &mut Cell) -> Result<Acked, Ended> {
    take_ack::<Brand>(cell, Blank::new(1))
}

/// As `next`, counting the instructions by the ledger of the blank.
fn take_ack<L: Ledger>(cell: &mut Cell, blank: Blank) -> Result<Acked, Ended>
    requires name { blank.name ≡ L.name }
    requires parts { blank.parts ≡ L.parts }
    requires some { 0 < blank.parts }
{
    let mut steps = Steps::<L>::new(blank);
    cell.ack(&mut steps)
}

/// Asserts the outcome of the cell's next acknowledgement.
pub(crate) fn assert_ack(rt: &impl Abort, cell: &mut Cell, want: Result<Acked, Ended>) {
    assert_eq!(rt; next(cell), want);
}

/// The next ticket.
pub(crate) fn take(alloc: Global, cell: &mut Cell) -> Result<Ticket, Fail> {
    Ok(cell.take(alloc)?)
}

/// Why no ticket is taken; None if one is.
fn refusal(alloc: Global, cell: &mut Cell) -> Option<TakeFault> {
    match cell.take(alloc) {
        Ok(_) => None,
        Err(fault) => Some(fault),
    }
}

/// No ticket is taken, for this reason.
pub(crate) fn assert_refused(rt: &impl Abort, alloc: Global, cell: &mut Cell, want: TakeFault) {
    assert_eq!(rt; refusal(alloc, cell), Some(want));
}

/// The flow is complete.
pub(crate) fn assert_complete(rt: &impl Abort, cell: &Cell)
    ensures { IsComplete cell.now }
{
    assert!(rt; cell.is_complete());
}

/// Whether this ticket is the one that is out.
fn is_the_one_out(cell: &Cell, ticket: &Ticket) -> bool {
    match &cell.out() {
        Some(out) => out.same(ticket),
        None => false,
    }
}

/// The ticket is out.
pub(crate) fn assert_out(rt: &impl Abort, cell: &Cell, ticket: &Ticket) {
    assert!(rt; is_the_one_out(cell, ticket));
}

/// The ticket has this number.
pub(crate) fn assert_number(rt: &impl Abort, ticket: &Ticket, number: u32) {
    assert_eq!(rt; ticket.number, number);
}

/// Applies the answer to a ticket: the reply; None if the answer is refused.
fn settle(cell: &mut Cell, ticket: &Ticket) -> Option<Reply> {
    let answer = answer(*ticket);
    let reply = answer.reply();
    match cell.settle(answer) {
        Ok(()) => Some(reply),
        Err(_) => None,
    }
}

/// The answer to a ticket is applied, and changes nothing.
pub(crate) fn assert_settles_nothing(rt: &impl Abort, cell: &mut Cell, ticket: &Ticket) {
    assert_eq!(rt; settle(cell, ticket), Some(Reply::Nothing));
}

/// The number of the ticket that is out, if one is, after the answer to a ticket is refused; None if it is applied.
fn ticket_out_if_stale(cell: &mut Cell, ticket: &Ticket) -> Option<Option<u32>> {
    match cell.settle(answer(*ticket)) {
        Ok(()) => None,
        Err(stale) => Some(stale.out),
    }
}

/// The answer to a ticket is refused, and no ticket is out.
pub(crate) fn assert_stale(rt: &impl Abort, cell: &mut Cell, ticket: &Ticket) {
    assert_eq!(rt; ticket_out_if_stale(cell, ticket), Some(None));
}

//! Outboxes over a pool of their own.
ghost use Rattle.std.specs.Prelude.{◌≤◌};
ghost use Rattle.flow_lists.specs.Outbox.{AreOwned};

use ccp_base::{FaultKind, Notice, Report, Told, Values};
use flow_core::Outbox;
use slot_pool::Pool;
use std::process::Abort;
use std::test::Fail;

const NOTICE: Notice = Notice {
    flow: 1,
    program: 2,
    epoch: 3,
    at: 4,
    kind: FaultKind::Underflow,
    index: 5,
    now: 6,
    cwnd: 7,
};

/// A report of the acknowledgements from here on, with two fields.
fn report(first: u32) -> Report {
    let first = u64::from(first);
    Report {
        flow: 1,
        program: 2,
        epoch: 3,
        first,
        end: first + 1,
        now: 40,
        cwnd: 2896,
        rate: 5,
        fields: Values::from_slice(&[first, 9]),
    }
}

/// Puts the report of the acknowledgements from here on into the outbox, which has room.
fn push(rt: &impl Abort, pool: &mut Pool, outbox: &mut Outbox, first: u32)
    requires words { 80 ≤ pool.old.words }
    requires owned { AreOwned pool.old outbox.old.slots }
    ensures words { 80 ≤ pool.new.words }
    ensures owned { AreOwned pool.new outbox.new.slots }
{
    assert!(rt; outbox.room());
    assert!(rt; pool.free() > 0);
    outbox.push(pool, &report(first));
}

/// The next ticket has this.
fn assert_tells(rt: &impl Abort, pool: &mut Pool, outbox: &mut Outbox, want: Option<Told>)
    requires words { 80 ≤ pool.old.words }
    requires owned { AreOwned pool.old outbox.old.slots }
    ensures words { 80 ≤ pool.new.words }
    ensures owned { AreOwned pool.new outbox.new.slots }
{
    assert_eq!(rt; outbox.pop(pool), want);
}

/// The next ticket has the report of the acknowledgements from here on.
fn assert_tells_report(rt: &impl Abort, pool: &mut Pool, outbox: &mut Outbox, first: u32)
    requires words { 80 ≤ pool.old.words }
    requires owned { AreOwned pool.old outbox.old.slots }
    ensures words { 80 ≤ pool.new.words }
    ensures owned { AreOwned pool.new outbox.new.slots }
{
    assert_tells(rt, pool, outbox, Some(Told::Report(report(first))));
}

/// Asserts how many slots are free.
fn assert_free(rt: &impl Abort, pool: &Pool, slots: u32) {
    assert_eq!(rt; pool.free(), slots);
}

/// No ticket can be taken any more, and each slot is free.
fn assert_emptied(rt: &impl Abort, pool: &mut Pool, outbox: &mut Outbox, slots: u32)
    requires words { 80 ≤ pool.old.words }
    requires owned { AreOwned pool.old outbox.old.slots }
{
    assert_tells(rt, pool, outbox, None);
    assert_free(rt, pool, slots);
}

/// The outbox has no room.
fn assert_full(rt: &impl Abort, outbox: &Outbox) {
    assert!(rt; !outbox.room());
}

/// A report waits in an outbox that is full then, before a notice.
fn assert_waits(rt: &impl Abort, pool: &mut Pool, outbox: &mut Outbox)
    requires words { 80 ≤ pool.old.words }
    requires owned { AreOwned pool.old outbox.old.slots }
    ensures words { 80 ≤ pool.new.words }
    ensures owned { AreOwned pool.new outbox.new.slots }
{
    push(rt, pool, outbox, 3);
    assert_full(rt, outbox);
    outbox.note(NOTICE);
}

/// A ticket has the report, and the next one the notice.
fn assert_tells_both(rt: &impl Abort, pool: &mut Pool, outbox: &mut Outbox)
    requires words { 80 ≤ pool.old.words }
    requires owned { AreOwned pool.old outbox.old.slots }
{
    assert_tells_report(rt, pool, outbox, 3);
    assert_tells(rt, pool, outbox, Some(Told::Fault(NOTICE)));
    assert_emptied(rt, pool, outbox, 1);
}

/// A report comes before the notice that came after it.
fn assert_tells_in_order(rt: &impl Abort, pool: &mut Pool, outbox: &mut Outbox)
    requires words { 80 ≤ pool.old.words }
    requires owned { AreOwned pool.old outbox.old.slots }
{
    assert_waits(rt, pool, outbox);
    assert_tells_both(rt, pool, outbox);
}

/// The same of a pool and an outbox, which it drops.
fn assert_outbox_tells_in_order(rt: &impl Abort, mut pool: Pool, mut outbox: Outbox)
    requires words { 80 ≤ pool.words }
    requires owned { AreOwned pool outbox.slots }
{
    assert_tells_in_order(rt, &mut pool, &mut outbox);
    drop(outbox);
    drop(pool);
}

#[test]
fn a_report_comes_before_a_notice(rt: HostRuntime) -> Result<(), Fail> {
    let outbox = Outbox::new(rt.alloc(), 1)?;
    let pool = Pool::new(rt.alloc(), 1, 80)?;
    assert_outbox_tells_in_order(&rt, pool, outbox);
    Ok(())
}

/// Asserts how many reports wait.
fn assert_waiting(rt: &impl Abort, outbox: &Outbox, reports: u32) {
    assert_eq!(rt; outbox.waiting(), reports);
}

/// The oldest of two reports makes room for a third one.
fn assert_makes_room(rt: &impl Abort, pool: &mut Pool, outbox: &mut Outbox)
    requires words { 80 ≤ pool.old.words }
    requires owned { AreOwned pool.old outbox.old.slots }
    ensures words { 80 ≤ pool.new.words }
    ensures owned { AreOwned pool.new outbox.new.slots }
{
    push(rt, pool, outbox, 0);
    push(rt, pool, outbox, 1);
    assert_tells_report(rt, pool, outbox, 0);
    push(rt, pool, outbox, 2);
}

/// Two reports wait and are taken, and a notice that is void then isn't.
fn assert_tells_the_rest(rt: &impl Abort, pool: &mut Pool, outbox: &mut Outbox)
    requires words { 80 ≤ pool.old.words }
    requires owned { AreOwned pool.old outbox.old.slots }
    ensures words { 80 ≤ pool.new.words }
    ensures owned { AreOwned pool.new outbox.new.slots }
{
    assert_waiting(rt, outbox, 2);
    assert_tells_report(rt, pool, outbox, 1);
    assert_tells_report(rt, pool, outbox, 2);
    outbox.note(NOTICE);
    outbox.void();
}

/// An outbox in which two reports may wait gives three in order.
fn assert_tells_three(rt: &impl Abort, pool: &mut Pool, outbox: &mut Outbox)
    requires words { 80 ≤ pool.old.words }
    requires owned { AreOwned pool.old outbox.old.slots }
{
    assert_makes_room(rt, pool, outbox);
    assert_tells_the_rest(rt, pool, outbox);
    assert_emptied(rt, pool, outbox, 3);
}

/// The same of a pool and an outbox, which it drops.
fn assert_outbox_tells_three(rt: &impl Abort, mut pool: Pool, mut outbox: Outbox)
    requires words { 80 ≤ pool.words }
    requires owned { AreOwned pool outbox.slots }
{
    assert_tells_three(rt, &mut pool, &mut outbox);
    drop(outbox);
    drop(pool);
}

#[test]
fn the_oldest_of_a_full_outbox_comes_first(rt: HostRuntime) -> Result<(), Fail> {
    let outbox = Outbox::new(rt.alloc(), 2)?;
    let pool = Pool::new(rt.alloc(), 3, 80)?;
    assert_outbox_tells_three(&rt, pool, outbox);
    Ok(())
}

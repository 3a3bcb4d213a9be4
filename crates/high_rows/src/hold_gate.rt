//! A gate that holds workers.
use ccp_base::{Gate, Point};
use std::sync::atomic::{AtomicU64, Ordering};

/// How many turns a hold waits at most.
const TURNS: u32 = 2_000_000;

/// How many loads a turn makes.
const LOADS: u32 = 1000;

/// How many workers a gate counts by number.
const WORKERS: usize = 8;

/// All workers together, of which a hold may wait for the passing that comes as this one.
pub(crate) const ALL: u32 = 8;

/// A worker's passing of a point, by how often it passed there, from 1 on, and the number of the flow or case there;
/// None if any of several may come.
pub(crate) type Passing = (u32, Point, u64, Option<u32>);

/// A worker waits at the first passing until the second one has come.
pub(crate) type Waiting = (Passing, Passing);

/// Whether a passing comes at a moment, by whatever number.
fn is_at(moment: Passing, worker: u32, point: Point, time: u64) -> bool {
    moment.0 == worker && moment.1 == point && moment.2 == time
}

/// Whether the moment has this number.
fn has_number(moment: Passing, number: u32) -> bool {
    match moment.3 {
        Some(wanted) => wanted == number,
        None => true,
    }
}

/// How often a worker passed each point.
#[derive(Drop)]
struct Passed {
    before_ack: AtomicU64,
    in_ack: AtomicU64,
    after_ack: AtomicU64,
    after_take: AtomicU64,
    after_settle: AtomicU64,
    in_case: AtomicU64,
    after_case: AtomicU64,
}

impl Passed {
    fn new() -> Passed {
        Passed {
            before_ack: AtomicU64::new(0),
            in_ack: AtomicU64::new(0),
            after_ack: AtomicU64::new(0),
            after_take: AtomicU64::new(0),
            after_settle: AtomicU64::new(0),
            in_case: AtomicU64::new(0),
            after_case: AtomicU64::new(0),
        }
    }

    /// The count of a point.
    fn count_at(&self, point: Point) -> &AtomicU64 {
        match point {
            Point::BeforeAck => &self.before_ack,
            Point::InAck => &self.in_ack,
            Point::AfterAck => &self.after_ack,
            Point::AfterTake => &self.after_take,
            Point::AfterSettle => &self.after_settle,
            Point::InCase => &self.in_case,
            Point::AfterCase => &self.after_case,
        }
    }
}

/// How often workers passed each point. It holds no reference, so that the borrow checker covers its calls.
#[derive(Drop)]
struct Counts {
    workers: [Passed; WORKERS],
    all: Passed,
}

impl Counts {
    fn new() -> Counts {
        Counts {
            workers: [
                Passed::new(),
                Passed::new(),
                Passed::new(),
                Passed::new(),
                Passed::new(),
                Passed::new(),
                Passed::new(),
                Passed::new(),
            ],
            all: Passed::new(),
        }
    }

    /// The counts of a worker, or of all of them.
    fn of(&self, worker: u32) -> &Passed {
        let place = worker as usize;
        if place < WORKERS {
            &self.workers[place]
        } else {
            &self.all
        }
    }

    /// How often a worker passed this point, or all of them.
    fn count_at(&self, worker: u32, point: Point) -> &AtomicU64 {
        self.of(worker).count_at(point)
    }
}

/// A gate with holds, which counts what workers pass.
#[derive(Drop)]
pub(crate) struct HoldGate {
    counts: Counts,
    holds: &'static [Waiting],
    /// How many holds ended in time.
    held: AtomicU64,
    /// How many did not, and how often a worker reached a moment of theirs with another number.
    failed: AtomicU64,
}

impl HoldGate {
    /// A gate with these holds.
    pub(crate) fn new(holds: &'static [Waiting]) -> HoldGate {
        HoldGate {
            counts: Counts::new(),
            holds,
            held: AtomicU64::new(0),
            failed: AtomicU64::new(0),
        }
    }

    /// Whether each hold ended in time, and no worker reached a moment of theirs with another number.
    pub(crate) fn held_all(&self) -> bool {
        self.failed.load(Ordering::SeqCst) == 0
            && self.held.load(Ordering::SeqCst) == self.holds.len() as u64
    }

    /// How often workers passed this point.
    pub(crate) fn pass_count(&self, point: Point) -> u64 {
        self.counts.count_at(ALL, point).load(Ordering::SeqCst)
    }

    /// Waits until this moment has come.
    fn hold(&self, until: Passing) {
        let count = self.counts.count_at(until.0, until.1);
        for _ in 0..TURNS {
            if has_come(count, until.2) {
                self.held.fetch_add(1, Ordering::SeqCst);
                return;
            }
        }
        self.failed.fetch_add(1, Ordering::SeqCst);
    }
}

/// Whether the count is seen to have come so far in one turn.
fn has_come(count: &AtomicU64, time: u64) -> bool {
    for _ in 0..LOADS {
        if count.load(Ordering::SeqCst) >= time {
            return true;
        }
    }
    false
}

impl HoldGate {
    /// Compares the number of a passing with that of a moment that it comes at.
    fn compare(&self, moment: Passing, worker: u32, point: Point, time: u64, number: u32) {
        if is_at(moment, worker, point, time) && !has_number(moment, number) {
            self.failed.fetch_add(1, Ordering::SeqCst);
        }
    }

    /// Compares the number of a passing with those of all moments that it comes at.
    fn compare_all(&self, worker: u32, point: Point, time: u64, number: u32) {
        for hold in self.holds {
            let (at, until) = *hold;
            self.compare(at, worker, point, time, number);
            self.compare(until, worker, point, time, number);
        }
    }

    /// Holds the worker if one of the holds begins at this passing.
    fn hold_at(&self, worker: u32, point: Point, time: u64) {
        for hold in self.holds {
            let (at, until) = *hold;
            if is_at(at, worker, point, time) {
                self.hold(until);
            }
        }
    }
}

impl Gate for HoldGate {
    fn pass(&self, worker: u32, point: Point, number: u32) {
        self.counts
            .count_at(ALL, point)
            .fetch_add(1, Ordering::SeqCst);
        if worker < ALL {
            let before = self
                .counts
                .count_at(worker, point)
                .fetch_add(1, Ordering::SeqCst);
            let time = before.saturating_add(1);
            self.compare_all(worker, point, time, number);
            self.hold_at(worker, point, time);
        }
    }
}

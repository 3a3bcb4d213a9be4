//! The case of a link: its trace, queue, delays, losses and mark, with copies and equality.
ghost use Rattle.std.specs.Prelude.{◌≡◌, ◌≤◌, ◌↔◌, IfOk, IsTrue};
ghost use Rattle.std.specs.Option.{ForSome};
ghost use Rattle.ccp_base.specs.Limits.{most_segment_bytes, most_queue, most_mark, most_delay_us, most_timeout_us};
ghost use Rattle.std.specs.List.Sorted.{IsStrictlyIncreasing};

use crate::trace::Trace;
use ccp_base::{NoMemory, Sequence, same_number};
use std::alloc::Global;

/// What a link is: its trace, its queue, its delays and which packets it loses.
#[derive(Drop)]
pub struct LinkCase {
    /// When the link can send a packet.
    pub trace: Trace,
    /// A packet's size, in bytes, 1 to 65,535.
    pub mss: u32,
    /// How many packets may wait for their chances, 1 to 4,096.
    pub queue: u32,
    /// From a packet's chance to its acknowledgement, in microseconds, at most 10,000,000.
    pub delay_us: u64,
    /// How long the sender waits if every packet in flight is lost, in microseconds, 1 to 60,000,000.
    pub timeout_us: u64,
    /// The numbers of packets that are lost however full the queue is, each above the one before.
    pub losses: Sequence<u32>,
    /// How many packets must wait at least for the next one to be marked, 1 to 4,096. If `None`, no packet is marked.
    pub mark: Option<u32>,
    ghost mss_within: { (1 ≤ mss) × (mss ≤ most_segment_bytes) },
    ghost queue_within: { (1 ≤ queue) × (queue ≤ most_queue) },
    ghost delay_within: { delay_us ≤ most_delay_us },
    ghost timeout_within: { (1 ≤ timeout_us) × (timeout_us ≤ most_timeout_us) },
    ghost losses_rise: { IsStrictlyIncreasing losses },
    ghost mark_within: { ForSome mark (λ m. (1 ≤ m) × (m ≤ most_mark)) },
}

impl LinkCase {
    /// An equal case.
    pub fn copy(&self, alloc: Global) -> Result<LinkCase, NoMemory>
        ensures { IfOk result (λ case. case ≡ self.now) }
    {
        let trace = self.trace.copy(alloc)?;
        let losses = copy_of(alloc, &self.losses)?;
        Ok(LinkCase {
            trace,
            mss: self.mss,
            queue: self.queue,
            delay_us: self.delay_us,
            timeout_us: self.timeout_us,
            losses,
            mark: self.mark,
        })
    }

    /// Whether two cases are equal.
    pub fn same(&self, other: &LinkCase) -> bool
        ensures { IsTrue result ↔ (self.now ≡ other.now) }
    {
        if !same_numbers(self.trace.as_slice(), other.trace.as_slice()) {
            return false;
        }
        if !same_numbers(self.losses.as_slice(), other.losses.as_slice()) {
            return false;
        }
        if self.mss != other.mss || self.queue != other.queue {
            return false;
        }
        if self.delay_us != other.delay_us || self.timeout_us != other.timeout_us {
            return false;
        }
        same_number(self.mark, other.mark)
    }
}

/// An equal list.
fn copy_of(alloc: Global, numbers: &Sequence<u32>) -> Result<Sequence<u32>, NoMemory>
    ensures { IfOk result (λ copy. copy ≡ numbers.now) }
{
    let items = numbers.as_slice().to_vec(alloc)?;
    Ok(Sequence::from_vec(items))
}

// A function of its own: the search turns its `==` into an equation, which `same` takes from the clause.
fn same_numbers(these: &[u32], others: &[u32]) -> bool
    ensures { IsTrue result ↔ (these.now ≡ others.now) }
{
    these == others
}

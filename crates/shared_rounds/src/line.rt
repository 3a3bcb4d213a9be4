//! A line from one thread to another: a ring of messages, and a bell that wakes the thread that takes them.
ghost use Rattle.std.specs.Prelude.{◌≡◌, ◌++◌, ◌∷◌, [], None, IfSome};
ghost use Rattle.rtrb.specs.Ring.{sent};

use ccp_base::NoMemory;
use crossbeam_utils::CachePadded;
use rtrb::{Consumer, Producer, PushError, RingBuffer};
use std::alloc::Global;
use std::hint::spin_loop;
use std::sync::Wait;
use std::thread::Parker;

/// How often a thread looks for a message before it sleeps, which takes some microseconds in all. A thread that looks
/// much longer takes processors from those that it waits for, if the machine is busy.
const LOOKS: u32 = 100;

/// How many messages a line has room for. Only one is on its way at a time. With room for more a sender seldom reads
/// how far the receiver is, and each such read fetches a cache line from the receiver's processor.
const ROOM: usize = 64;

/// What wakes a thread that sleeps until a message comes. The bells of a run are in one list, and each message rings
/// one, so each has cache lines of its own.
pub type Bell = CachePadded<Parker>;

/// The end of a line that messages go into. Once it is dropped no more come.
pub(crate) struct Sender<'e, T: Drop> {
    ring: Producer<T, Global>,
    bell: &'e Bell,
}

/// The end of a line that messages come out of.
#[derive(Drop)]
pub(crate) struct Receiver<'e, T: Drop> {
    ring: Consumer<T, Global>,
    bell: &'e Bell,
}

/// A line without a message. The bell is that of the thread that receives, and of no other.
pub(crate) fn line<'e, T: Drop>(
    alloc: Global,
    bell: &'e Bell,
) -> Result<(Sender<'e, T>, Receiver<'e, T>), NoMemory> {
    let (producer, consumer) = RingBuffer::new(alloc, ROOM)?;
    let sender = Sender {
        ring: producer,
        bell,
    };
    let receiver = Receiver {
        ring: consumer,
        bell,
    };
    Ok((sender, receiver))
}

impl<'e, T: Drop> Sender<'e, T> {
    /// Sends a message, or hands it back if the line is full.
    pub(crate) fn send(&mut self, message: T) -> Option<T>
        ensures sent { result ≡ None → sent self.new.ring ≡ sent self.old.ring ++ message ∷ [] }
        ensures unsent { IfSome result (λ unsent. unsent ≡ message) }
    {
        match self.ring.push(message) {
            Ok(()) => {
                self.bell.unpark();
                None
            }
            Err(PushError::Full(message)) => Some(message),
        }
    }
}

impl<'e, T: Drop> Drop for Sender<'e, T> {
    fn drop(self) {
        let Sender { ring, bell } = self;
        drop(ring);
        bell.unpark();
    }
}

impl<'e, T: Drop> Receiver<'e, T> {
    /// The next message, or none if no more can come. The thread looks for a while, and then it sleeps.
    pub(crate) fn receive<R: Wait>(&mut self, rt: &R) -> Option<T> {
        for _ in rt.forever() {
            if let Some(message) = self.look() {
                return Some(message);
            }
            if self.ring.is_abandoned() {
                return self.ring.pop().ok();
            }
            self.bell.park(rt);
        }
        unreachable!()
    }

    /// Looks for a message for a while.
    fn look(&mut self) -> Option<T> {
        for _ in 0..LOOKS {
            if let Ok(message) = self.ring.pop() {
                return Some(message);
            }
            spin_loop();
        }
        None
    }
}

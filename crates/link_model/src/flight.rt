//! The packets in flight that aren't lost, in a ring of places.
ghost use Rattle.std.specs.Prelude.{◌≡◌, ◌+◌, ◌-◌, ◌%◌, ◌^◌, ◌<◌, ◌≤◌, true, false, [], ◌∷◌, ◌++◌, length, IfOk};
ghost use Rattle.ccp_base.specs.Limits.{most_flight};
ghost use Rattle.link_model.specs.Rings.{IsRing, arrival_at, arrivals_in};

use crate::arrival::Arrival;
use std::alloc::{AllocError, Global};

/// The most packets in flight.
pub(crate) const PACKETS: usize = 4096;

/// The packets in flight that aren't lost, in the order of their numbers. They are counted from 0 as they are put in,
/// and each lies at the place of its count modulo 4,096.
#[derive(Drop)]
pub(crate) struct Flight {
    places: Vec<Arrival>,
    /// How many packets were taken out.
    pub(crate) taken: u64,
    /// How many packets were put in.
    pub(crate) put: u64,
}

impl Flight {
    /// No packets. Reserves memory for 4,096 of them.
    pub(crate) fn new(alloc: Global) -> Result<Flight, AllocError>
        ensures ring { IfOk result (λ flight. IsRing flight) }
        ensures taken { IfOk result (λ flight. flight.taken ≡ 0) }
        ensures put { IfOk result (λ flight. flight.put ≡ 0) }
    {
        let places = Vec::with_capacity(alloc, PACKETS)?;
        Ok(Flight {
            places,
            taken: 0,
            put: 0,
        })
    }

    /// Puts a packet behind the others.
    #[inline(always)]
    pub(crate) fn push(&mut self, arrival: Arrival)
        requires ring { IsRing self.old }
        requires room { length (arrivals_in self.old) < most_flight }
        requires few { self.old.put + 1 < 2 ^ 64 }
        ensures ring { IsRing self.new }
        ensures arrivals { arrivals_in self.new ≡ arrivals_in self.old ++ arrival ∷ [] }
        ensures taken { self.new.taken ≡ self.old.taken }
        ensures put { self.new.put ≡ self.old.put + 1 }
    {
        let place = (self.put % PACKETS as u64) as usize;
        self.put += 1;
        if place < self.places.len() {
            self.places[place] = arrival;
            return;
        }
        // The first time round, so that few packets use little memory.
        self.places.push_reserved(arrival);
    }

    /// Whether no packet is in flight.
    #[inline(always)]
    pub(crate) fn is_empty(&self) -> bool
        requires ring { IsRing self.now }
        ensures none { result ≡ true → arrivals_in self.now ≡ [] }
        ensures some { result ≡ false → self.now.taken < self.now.put }
    {
        self.taken == self.put
    }

    /// Takes the first packet out. There must be one.
    #[inline(always)]
    pub(crate) fn take_first(&mut self) -> Arrival
        requires ring { IsRing self.old }
        requires some { self.old.taken < self.old.put }
        ensures ring { IsRing self.new }
        ensures first { arrivals_in self.old ≡ result ∷ arrivals_in self.new }
        ensures taken { self.new.taken ≡ self.old.taken + 1 }
        ensures put { self.new.put ≡ self.old.put }
    {
        let first = self.packet(self.taken);
        self.taken += 1;
        first
    }

    /// When the packet of this count arrives, in microseconds. It must be in flight.
    #[inline(always)]
    pub(crate) fn arrival_time(&self, count: u64) -> u64
        requires ring { IsRing self.now }
        requires from { self.now.taken ≤ count }
        requires to { count < self.now.put }
        ensures { result ≡ (arrival_at (arrivals_in self.now) (count - self.now.taken)).at }
    {
        self.packet(count).at
    }

    /// The packet that was last put at the place of this count.
    #[inline(always)]
    fn packet(&self, count: u64) -> Arrival
        requires ring { IsRing self.now }
        requires put { count < self.now.put }
        ensures { result ≡ arrival_at self.now.places.items (count % most_flight) }
    {
        self.places[(count % PACKETS as u64) as usize]
    }
}

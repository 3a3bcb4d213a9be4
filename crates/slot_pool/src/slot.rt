//! The handle of a slot that is out, and the answer if every slot is.
ghost use Rattle.std.specs.Prelude.{◌≡◌, ℕ};

use std::marker::Model;

/// A slot of a pool that was taken and not yet given back. It is seen as its number, from 0.
///
/// It can't be copied, so a slot has one holder.
#[derive(Drop)]
pub struct Slot {
    number: usize,
}

impl Model for Slot {
    ghost use Rattle.std.specs.Prelude.{ℕ};

    ghost Value = { ℕ };

    ghost view = { λ slot. slot.number };
}

impl Slot {
    /// The slot of this number, for the pool that hands it out.
    pub(crate) fn with_number(number: usize) -> Slot
        ensures { result ≡ number }
    {
        Slot { number }
    }

    /// The number of the slot, from 0.
    pub(crate) fn number(&self) -> usize
        ensures { result ≡ self.now }
    {
        self.number
    }
}

/// Every slot is out.
#[derive(Clone, Copy, Debug)]
pub struct Full;

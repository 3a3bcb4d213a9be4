//! A trait for what hands out slots of words, so that callers needn't know the pool behind it.
ghost use Rattle.std.specs.Prelude.{◌≡◌, ℕ, ◌+◌, ◌<◌, ◌↔◌, List, length, None, Some, IsErr, IfOk, OnOk, OnErr};
ghost use Rattle.slot_pool.specs.Pool.{PoolState, words_at, IsOut, free_of, ChangesSlot, TakesZeros, WritesWord};

use crate::slot::{Full, Slot};

/// What hands out slots of words: a pool, or what has one inside.
pub trait Slots {
    /// The pool of the slots that are handed out.
    ghost pool: { Self → PoolState };

    /// The rest of the object, which no call here changes.
    ghost rest: { Self → List ℕ };

    /// Takes a slot that isn't out. Its words are all 0. Its number may be the number of slots or above, since a holder
    /// that keeps slots for itself numbers the others after them.
    fn take_slot(&mut self) -> Result<Slot, Full>
        ensures full { IsErr result ↔ (free_of (pool self.old) ≡ 0) }
        ensures was_free { IfOk result (λ slot. words_at (pool self.old) slot ≡ None) }
        ensures zeros { IfOk result (λ slot. TakesZeros (pool self.old) (pool self.new) slot) }
        ensures counted { OnOk result (free_of (pool self.new) + 1 ≡ free_of (pool self.old)) }
        ensures unchanged { OnErr result (pool self.new ≡ pool self.old) }
        ensures rest { rest self.new ≡ rest self.old };

    /// Gives a slot back. It must be out here.
    fn give_slot(&mut self, slot: Slot)
        requires { IsOut (pool self.old) slot }
        ensures given { ChangesSlot (pool self.old) (pool self.new) slot None }
        ensures counted { free_of (pool self.new) ≡ free_of (pool self.old) + 1 }
        ensures rest { rest self.new ≡ rest self.old };

    /// The words of a slot. It must be out here.
    fn slot(&self, slot: &Slot) -> &[u64]
        requires { IsOut (pool self.now) slot.now }
        ensures words { words_at (pool self.now) slot.now ≡ Some result.now }
        ensures len { length result.now ≡ (pool self.now).words };

    /// Writes one word of a slot, at a place from 0 on. The slot must be out here.
    fn set_slot(&mut self, slot: &Slot, at: u32, word: u64)
        requires out { IsOut (pool self.old) slot.now }
        requires within { at < (pool self.old).words }
        ensures written { WritesWord (pool self.old) (pool self.new) slot.now at word }
        ensures out { IsOut (pool self.new) slot.now }
        ensures counted { free_of (pool self.new) ≡ free_of (pool self.old) }
        ensures rest { rest self.new ≡ rest self.old };
}

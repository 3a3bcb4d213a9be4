//! The pool of slots: a slot is taken, written, read and given back, and free ones are counted.
ghost use Rattle.std.specs.Prelude.{◌≡◌, ℕ, ◌+◌, ◌-◌, ◌*◌, ◌^◌, ◌<◌, ◌≤◌, ◌↔◌, [], length, None, Some, option_map, IsErr, IfOk, OnOk, OnErr};
ghost use Rattle.std.specs.FinMap as map;
ghost use Rattle.slot_pool.specs.Pool.{words_at, IsOut, free_of, unused, ChangesSlot, TakesZeros, WritesWord, WritesRun, front_at};

use crate::region::Region;
use crate::slot::{Full, Slot};
use crate::slots::Slots;
use std::alloc::{AllocError, Global};
use std::marker::Model;

/// A pool of slots, each of the same number of words, in one region.
#[derive(Drop)]
pub struct Pool {
    region: Region,
    /// The first free slot, if there is one. Its first word is the number of the next one.
    first_free: usize,
    /// The number of free slots.
    free: usize,
}

impl Model for Pool {
    ghost use Rattle.slot_pool.specs.Pool.{PoolState, pool_code};
    ghost use Rattle.slot_pool.specs.FreeList.{pool_of, IsLinked};
    ghost use Rattle.slot_pool.specs.Region.{words_of};

    ghost Value = { PoolState };

    ghost coded = { pool_code };

    ghost view = { λ p. pool_of (words_of p.region) p.region.slots p.region.words p.first_free p.free };

    ghost invariant = { λ p. IsLinked (words_of p.region) p.region.slots p.region.words p.first_free p.free };
}

impl Pool {
    /// A pool of `slots` slots of `words` words each, with no slot out.
    pub fn new(alloc: Global, slots: u32, words: u32) -> Result<Pool, AllocError>
        requires slots { 1 ≤ slots }
        requires words { 1 ≤ words }
        requires size { slots * words ≤ 2 ^ 24 }
        ensures unused { IfOk result (λ pool. pool ≡ unused slots words) }
        ensures free { IfOk result (λ pool. free_of pool ≡ slots) }
    {
        let free = slots as usize;
        let mut region = Region::new(alloc, free, words as usize)?;
        for slot in 0..free {
            region.write(slot, 0, slot as u64 + 1);
        }
        Ok(Pool {
            region,
            first_free: 0,
            free,
        })
    }

    /// Takes a slot that isn't out. Its words are all 0.
    pub fn take(&mut self) -> Result<Slot, Full>
        ensures full { IsErr result ↔ (free_of self.old ≡ 0) }
        ensures was_free { IfOk result (λ slot. words_at self.old slot ≡ None) }
        ensures zeros { IfOk result (λ slot. TakesZeros self.old self.new slot) }
        ensures within { IfOk result (λ slot. slot < self.old.slots) }
        ensures counted { OnOk result (free_of self.new + 1 ≡ free_of self.old) }
        ensures unchanged { OnErr result (self.new ≡ self.old) }
    {
        if self.free == 0 {
            return Err(Full);
        }
        let number = self.first_free;
        self.first_free = self.region.first_word(number) as usize;
        self.free -= 1;
        self.region.clear(number);
        Ok(Slot::with_number(number))
    }

    /// As `take`, but the slot has whatever words are in it: they aren't cleared.
    pub fn take_as_is(&mut self) -> Result<Slot, Full>
        ensures full { IsErr result ↔ (free_of self.old ≡ 0) }
        ensures was_free { IfOk result (λ slot. words_at self.old slot ≡ None) }
        ensures taken { IfOk result (λ slot. ChangesSlot self.old self.new slot (words_at self.new slot)) }
        ensures len { IfOk result (λ slot. option_map (λ words. length words) (words_at self.new slot) ≡ Some self.old.words) }
        ensures counted { OnOk result (free_of self.new + 1 ≡ free_of self.old) }
        ensures unchanged { OnErr result (self.new ≡ self.old) }
    {
        if self.free == 0 {
            return Err(Full);
        }
        let first = self.first_free;
        self.first_free = self.region.first_word(first) as usize;
        self.free -= 1;
        Ok(Slot::with_number(first))
    }

    /// Gives a slot back. It must be out in this pool.
    pub fn give(&mut self, slot: Slot)
        requires { IsOut self.old slot }
        ensures given { ChangesSlot self.old self.new slot None }
        ensures counted { free_of self.new ≡ free_of self.old + 1 }
    {
        let number = slot.number();
        self.region.write(number, 0, self.first_free as u64);
        self.first_free = number;
        self.free += 1;
    }

    /// The words of a slot. It must be out in this pool.
    pub fn words(&self, slot: &Slot) -> &[u64]
        requires { IsOut self.now slot.now }
        ensures words { words_at self.now slot.now ≡ Some result.now }
        ensures len { length result.now ≡ self.now.words }
    {
        self.region.words_of(slot.number())
    }

    /// Writes one word of a slot, at a place from 0 on. The slot must be out in this pool.
    pub fn write(&mut self, slot: &Slot, at: u32, word: u64)
        requires out { IsOut self.old slot.now }
        requires within { at < self.old.words }
        ensures written { WritesWord self.old self.new slot.now at word }
        ensures out { IsOut self.new slot.now }
        ensures counted { free_of self.new ≡ free_of self.old }
    {
        self.region.write(slot.number(), at as usize, word);
    }

    /// Writes words of a slot, from a place on. The slot must be out in this pool.
    #[inline(always)]
    pub fn write_run(&mut self, slot: &Slot, at: u32, run: &[u64])
        requires out { IsOut self.old slot.now }
        requires within { at + length run.now ≤ self.old.words }
        ensures written { WritesRun self.old self.new slot.now at run.now }
        ensures out { IsOut self.new slot.now }
        ensures counted { free_of self.new ≡ free_of self.old }
    {
        self.region.write_run(slot.number(), at as usize, run);
    }

    /// Copies the first words of a slot into a slot, from a place on. Both must be out in this pool.
    pub fn copy_run(&mut self, from: &Slot, count: u32, slot: &Slot, at: u32)
        requires from_out { IsOut self.old from.now }
        requires out { IsOut self.old slot.now }
        requires within { at + count ≤ self.old.words }
        ensures written { WritesRun self.old self.new slot.now at (front_at self.old from.now count) }
        ensures out { IsOut self.new slot.now }
        ensures counted { free_of self.new ≡ free_of self.old }
    {
        let source = from.number();
        let number = slot.number();
        self.region
            .copy_run(source, count as usize, number, at as usize);
    }

    /// The number of slots that aren't out.
    pub fn free(&self) -> u32
        ensures free { result ≡ free_of self.now }
        ensures counted { result + map.len self.now.out ≡ self.now.slots }
    {
        self.free as u32
    }
}

impl Slots for Pool {
    ghost use Rattle.std.specs.Prelude.{[]};

    ghost pool = { λ p. p };

    ghost rest = { λ _. [] };

    fn take_slot(&mut self) -> Result<Slot, Full> {
        self.take()
    }

    fn give_slot(&mut self, slot: Slot) {
        self.give(slot)
    }

    fn slot(&self, slot: &Slot) -> &[u64] {
        self.words(slot)
    }

    fn set_slot(&mut self, slot: &Slot, at: u32, word: u64) {
        self.write(slot, at, word)
    }
}

//! The machine's memory: one pool with the registers, the last report and further slots for its caller.
ghost use Rattle.std.specs.Prelude.{◌≡◌, ℕ, ◌+◌, ◌<◌, ◌≤◌, ◌≢◌, ◌↔◌, [], length, take, None, Some, option_map, IsErr, IfOk, OnOk, OnErr, replicate, slice_set};
ghost use Rattle.ccp_base.specs.Limits.{most_slots};
ghost use Rattle.slot_pool.specs.Pool.{PoolState, words_at, IsOut, free_of, unused, ChangesSlot, TakesZeros, WritesWord, WritesRun, with_run};
ghost use Rattle.fold_machine.specs.Store.{slot_words};
ghost use Rattle.fold_machine.specs.Store.{StoreState, fresh_store};

use crate::places::{OWN_SLOTS, WORDS};
use slot_pool::{Full, Pool, Slot};
use std::alloc::{AllocError, Global};
use std::marker::Model;

/// The machine's memory: one pool, of which two slots hold its registers, as the last acknowledgement without a fault
/// left them, and the last report.
#[derive(Drop)]
pub(crate) struct Store {
    pool: Pool,
    registers: Slot,
    report: Slot,
}

impl Model for Store {
    ghost use Rattle.fold_machine.specs.Store.{StoreState, store_code};

    ghost Value = { StoreState };

    ghost coded = { store_code };

    ghost use Rattle.fold_machine.specs.Store.{store_of, IsOwned};

    ghost view = { λ s. store_of s.pool s.registers s.report };

    ghost invariant = { λ s. IsOwned s.pool s.registers s.report };
}

impl Store {
    /// A memory with `slots` further slots. Each word is 0.
    pub(crate) fn new(alloc: Global, slots: u32) -> Result<Store, AllocError>
        requires { slots ≤ most_slots }
        ensures { IfOk result (λ store. store ≡ fresh_store slots) }
    {
        let mut pool = Pool::new(alloc, slots + OWN_SLOTS, WORDS)?;
        let registers = take_free_slot(&mut pool);
        let report = take_free_slot(&mut pool);
        Ok(Store {
            pool,
            registers,
            report,
        })
    }

    /// The words of the registers.
    pub(crate) fn registers(&self) -> &[u64]
        ensures words { result.now ≡ self.now.registers }
        ensures len { length result.now ≡ slot_words }
    {
        self.pool.words(&self.registers)
    }

    /// The words of the last report.
    pub(crate) fn report(&self) -> &[u64]
        ensures words { result.now ≡ self.now.report }
        ensures len { length result.now ≡ slot_words }
    {
        self.pool.words(&self.report)
    }

    /// Writes a word of the registers.
    pub(crate) fn set_register(&mut self, at: u32, word: u64)
        requires { at < slot_words }
        ensures { self.new ≡ record self.old { registers = slice_set self.old.registers at word } }
    {
        self.pool.write(&self.registers, at, word);
    }

    /// Writes words of the registers, from a place on.
    pub(crate) fn set_registers(&mut self, at: u32, run: &[u64])
        requires { at + length run.now ≤ slot_words }
        ensures { self.new ≡ record self.old { registers = with_run self.old.registers at run.now } }
    {
        if !run.is_empty() {
            self.pool.write_run(&self.registers, at, run);
        }
    }

    /// Writes the first words of the last report.
    pub(crate) fn set_report(&mut self, run: &[u64])
        requires { length run.now ≤ slot_words }
        ensures { self.new ≡ record self.old { report = with_run self.old.report 0 run.now } }
    {
        self.pool.write_run(&self.report, 0, run);
    }

    /// Takes a further slot that isn't out. Its words are all 0.
    pub(crate) fn take_further(&mut self) -> Result<Slot, Full>
        ensures full { IsErr result ↔ (free_of self.old.further ≡ 0) }
        ensures was_free { IfOk result (λ slot. words_at self.old.further slot ≡ None) }
        ensures zeros { IfOk result (λ slot. TakesZeros self.old.further self.new.further slot) }
        ensures counted { OnOk result (free_of self.new.further + 1 ≡ free_of self.old.further) }
        ensures unchanged { OnErr result (self.new.further ≡ self.old.further) }
        ensures own { self.new ≡ record self.old { further = self.new.further } }
    {
        self.pool.take()
    }

    /// As `take_further`, but the slot has whatever words are in it: they aren't cleared.
    pub(crate) fn take_further_as_is(&mut self) -> Result<Slot, Full>
        ensures full { IsErr result ↔ (free_of self.old.further ≡ 0) }
        ensures was_free { IfOk result (λ slot. words_at self.old.further slot ≡ None) }
        ensures taken { IfOk result (λ slot.
            ChangesSlot self.old.further self.new.further slot (words_at self.new.further slot)) }
        ensures len { IfOk result (λ slot.
            option_map (λ words. length words) (words_at self.new.further slot) ≡ Some self.old.further.words) }
        ensures counted { OnOk result (free_of self.new.further + 1 ≡ free_of self.old.further) }
        ensures unchanged { OnErr result (self.new.further ≡ self.old.further) }
        ensures own { self.new ≡ record self.old { further = self.new.further } }
    {
        self.pool.take_as_is()
    }

    /// Gives a further slot back. It must be out.
    pub(crate) fn give_further(&mut self, slot: Slot)
        requires { IsOut self.old.further slot }
        ensures given { ChangesSlot self.old.further self.new.further slot None }
        ensures counted { free_of self.new.further ≡ free_of self.old.further + 1 }
        ensures own { self.new ≡ record self.old { further = self.new.further } }
    {
        self.pool.give(slot);
    }

    /// The words of a further slot. It must be out.
    pub(crate) fn further_words(&self, slot: &Slot) -> &[u64]
        requires { IsOut self.now.further slot.now }
        ensures words { words_at self.now.further slot.now ≡ Some result.now }
        ensures len { length result.now ≡ self.now.further.words }
    {
        self.pool.words(slot)
    }

    /// Writes one word of a further slot, at a place from 0 on. The slot must be out.
    pub(crate) fn set_further(&mut self, slot: &Slot, at: u32, word: u64)
        requires out { IsOut self.old.further slot.now }
        requires within { at < self.old.further.words }
        ensures written { WritesWord self.old.further self.new.further slot.now at word }
        ensures out { IsOut self.new.further slot.now }
        ensures counted { free_of self.new.further ≡ free_of self.old.further }
        ensures own { self.new ≡ record self.old { further = self.new.further } }
    {
        self.pool.write(slot, at, word);
    }

    /// Writes words of a further slot, from a place on. The slot must be out.
    #[inline(always)]
    pub(crate) fn set_further_run(&mut self, slot: &Slot, at: u32, run: &[u64])
        requires out { IsOut self.old.further slot.now }
        requires within { at + length run.now ≤ self.old.further.words }
        ensures written { WritesRun self.old.further self.new.further slot.now at run.now }
        ensures out { IsOut self.new.further slot.now }
        ensures counted { free_of self.new.further ≡ free_of self.old.further }
        ensures own { self.new ≡ record self.old { further = self.new.further } }
    {
        self.pool.write_run(slot, at, run);
    }

    /// Copies the first words of the last report into a further slot, from a place on. The slot must be out.
    pub(crate) fn copy_report(&mut self, count: u32, slot: &Slot, at: u32)
        requires out { IsOut self.old.further slot.now }
        requires within { at + count ≤ self.old.further.words }
        ensures written { WritesRun self.old.further self.new.further slot.now at (take count self.old.report) }
        ensures out { IsOut self.new.further slot.now }
        ensures counted { free_of self.new.further ≡ free_of self.old.further }
        ensures own { self.new ≡ record self.old { further = self.new.further } }
    {
        self.pool.copy_run(&self.report, count, slot, at);
    }
}

/// A slot of a pool that has one left.
fn take_free_slot(pool: &mut Pool) -> Slot
    requires { 0 < free_of pool.old }
    ensures was_free { words_at pool.old result ≡ None }
    ensures zeros { TakesZeros pool.old pool.new result }
    ensures counted { free_of pool.new + 1 ≡ free_of pool.old }
{
    match pool.take() {
        Ok(slot) => slot,
        Err(Full) => unreachable!(),
    }
}

//! The words under a pool's slots, read and written by slot number.
ghost use Rattle.std.specs.Prelude.{◌≡◌, ℕ, ◌+◌, ◌*◌, ◌^◌, ◌<◌, ◌≤◌, length, take, IfOk, replicate, slice_index, slice_set};

use std::alloc::{AllocError, Global};

/// A region of words, cut into slots of the same number of words.
#[derive(Drop)]
pub(crate) struct Region {
    /// The words of slot 0, then those of slot 1, and so on.
    items: Vec<u64>,
    /// The number of slots.
    pub(crate) slots: usize,
    /// The number of words of each slot.
    pub(crate) words: usize,
    ghost whole: { length items.items ≡ slots * words },
    ghost has_words: { 0 < words },
    ghost small: { slots * words ≤ 2 ^ 24 },
}

impl Region {
    ghost use Rattle.slot_pool.specs.Pool.{with_run};
    ghost use Rattle.slot_pool.specs.Region.{words_of, ChangesWords};

    /// A region of `slots` slots of `words` words each.
    pub(crate) fn new(alloc: Global, slots: usize, words: usize) -> Result<Region, AllocError>
        requires has_words { 0 < words }
        requires small { slots * words ≤ 2 ^ 24 }
        ensures slots { IfOk result (λ region. region.slots ≡ slots) }
        ensures words { IfOk result (λ region. region.words ≡ words) }
    {
        let items = vec![in alloc; 0u64; slots * words]?;
        Ok(Region {
            items,
            slots,
            words,
        })
    }

    /// The words of a slot.
    pub(crate) fn words_of(&self, slot: usize) -> &[u64]
        requires { slot < self.now.slots }
        ensures words { result.now ≡ words_of self.now slot }
        ensures len { length result.now ≡ self.now.words }
    {
        let start = slot * self.words;
        &self.items[start..start + self.words]
    }

    /// The first word of a slot.
    pub(crate) fn first_word(&self, slot: usize) -> u64
        requires { slot < self.now.slots }
        ensures { result ≡ slice_index (words_of self.now slot) 0 }
    {
        self.items[slot * self.words]
    }

    /// Writes one word of a slot.
    pub(crate) fn write(&mut self, slot: usize, at: usize, word: u64)
        requires slot_in { slot < self.old.slots }
        requires at_in { at < self.old.words }
        ensures { ChangesWords self.old self.new slot (slice_set (words_of self.old slot) at word) }
    {
        self.items[slot * self.words + at] = word;
    }

    /// Writes words of a slot, from a place on.
    #[inline(always)]
    pub(crate) fn write_run(&mut self, slot: usize, at: usize, run: &[u64])
        requires slot_in { slot < self.old.slots }
        requires run_in { at + length run.now ≤ self.old.words }
        ensures { ChangesWords self.old self.new slot (with_run (words_of self.old slot) at run.now) }
    {
        let start = slot * self.words + at;
        self.items[start..start + run.len()].copy_from_slice(run);
    }

    /// Copies the first words of a slot into a slot, from a place on.
    pub(crate) fn copy_run(&mut self, from: usize, count: usize, slot: usize, at: usize)
        requires from_in { from < self.old.slots }
        requires slot_in { slot < self.old.slots }
        requires run_in { at + count ≤ self.old.words }
        ensures { ChangesWords self.old self.new slot
            (with_run (words_of self.old slot) at (take count (words_of self.old from))) }
    {
        let source = from * self.words;
        let target = slot * self.words + at;
        self.items.copy_within(source..source + count, target);
    }

    /// Writes 0 into each word of a slot.
    pub(crate) fn clear(&mut self, slot: usize)
        requires { slot < self.old.slots }
        ensures { ChangesWords self.old self.new slot (replicate self.old.words 0) }
    {
        let start = slot * self.words;
        self.items[start..start + self.words].fill(0);
    }
}

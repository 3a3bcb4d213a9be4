//! What a machine's holder takes, reads and writes in place: a slot as it is, the last report's words, and the window.
ghost use Rattle.std.specs.Prelude.{◌≡◌, ◌+◌, ◌≤◌, ◌↔◌, length, None, Some, option_map, IsErr, IfOk, OnOk};
ghost use Rattle.ccp_base.specs.Limits.{most_fields};
ghost use Rattle.slot_pool.specs.Pool.{words_at, IsOut, free_of, ChangesSlot, WritesRun};

use crate::machine::Machine;
use crate::places::CWND;
use reg_code::places;
use slot_pool::{Full, Slot};

impl Machine {
    /// The fields of the last report, in order of declaration; none before it. As `reported`, without a copy.
    pub fn reported_words(&self) -> &[u64]
        ensures words { result.now ≡ self.now.report }
        ensures within { length self.now.report ≤ most_fields }
    {
        &self.store.report()[..self.reported as usize]
    }

    /// As `take_slot`, but the slot has whatever words are in it: they aren't cleared.
    pub fn take_slot_as_is(&mut self) -> Result<Slot, Full>
        ensures full { IsErr result ↔ (free_of self.old.further ≡ 0) }
        ensures was_free { IfOk result (λ slot. words_at self.old.further slot ≡ None) }
        ensures taken { IfOk result (λ slot.
            ChangesSlot self.old.further self.new.further slot (words_at self.new.further slot)) }
        ensures len { IfOk result (λ slot.
            option_map (λ words. length words) (words_at self.new.further slot) ≡ Some self.old.further.words) }
        ensures counted { OnOk result (free_of self.new.further + 1 ≡ free_of self.old.further) }
        ensures own { self.new ≡ record self.old { further = self.new.further } }
    {
        self.store.take_further_as_is()
    }

    /// Writes words of a further slot, from a place on. The slot must be out.
    #[inline(always)]
    pub fn set_slot_run(&mut self, slot: &Slot, at: u32, run: &[u64])
        requires out { IsOut self.old.further slot.now }
        requires within { at + length run.now ≤ self.old.further.words }
        ensures written { WritesRun self.old.further self.new.further slot.now at run.now }
        ensures out { IsOut self.new.further slot.now }
        ensures counted { free_of self.new.further ≡ free_of self.old.further }
        ensures own { self.new ≡ record self.old { further = self.new.further } }
    {
        self.store.set_further_run(slot, at, run);
    }

    /// Copies the fields of the last report into a further slot, from a place on. The slot must be out.
    pub fn copy_report(&mut self, slot: &Slot, at: u32)
        requires out { IsOut self.old.further slot.now }
        requires within { at + length self.old.report ≤ self.old.further.words }
        ensures written { WritesRun self.old.further self.new.further slot.now at self.old.report }
        ensures out { IsOut self.new.further slot.now }
        ensures counted { free_of self.new.further ≡ free_of self.old.further }
        ensures own { self.new ≡ record self.old { further = self.new.further } }
    {
        self.store.copy_report(self.reported, slot, at);
    }

    /// Writes the congestion window, in bytes, and changes nothing else. As `update` with this one value.
    pub fn set_cwnd(&mut self, cwnd: u64)
        ensures { self.new ≡ record self.old { kept = record self.old.kept { cwnd = cwnd } } }
    {
        self.store.set_register(CWND, cwnd);
        self.words[places::CWND] = cwnd;
    }
}

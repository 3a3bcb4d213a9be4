//! The outbox of a flow: reports that wait in slots of a pool, and at most one fault notice.
ghost use Rattle.std.specs.Prelude.{◌≡◌, ◌+◌, ◌<◌, ◌≤◌, ◌↔◌, nat_lt, List, [], ◌∷◌, ◌++◌, length, drop, None, Some};
ghost use Rattle.std.specs.Prelude.{IsNone, IsSome, IsTrue, IfOk, option_map};
ghost use Rattle.ccp_base.specs.Limits.{most_slots};
ghost use Rattle.ccp_base.specs.declared.exchange.Report.{Report};
ghost use Rattle.slot_pool.specs.Pool.{words_at, free_of, ChangesSlot};
ghost use Rattle.flow_lists.specs.Outbox.{empty_outbox, most_report_words, AreOwned, AreWide, AreAsMany, Gains};
ghost use Rattle.flow_lists.specs.Outbox.{LosesFirst, ChangesOnly, newest, GivesFirst, IsToldNext, notice_left};

use crate::content::take_content;
use crate::report_words::{store, take_report};
use ccp_base::{NoMemory, Notice, Report, Told};
use circular_buffer::HeapCircularBuffer;
use slot_pool::{Slot, Slots};
use std::alloc::Global;
use std::marker::Model;

/// The reports of a flow that wait, each in its own slot, and a fault notice that is untold, or none. A call that
/// writes or reads a slot borrows the slots.
#[derive(Drop)]
pub struct Outbox {
    waiting: HeapCircularBuffer<Slot>,
    untold: Option<Notice>,
}

impl Model for Outbox {
    ghost use Rattle.std.specs.Prelude.{◌≤◌};
    ghost use Rattle.ccp_base.specs.Limits.{most_slots};
    ghost use Rattle.flow_lists.specs.Outbox.{OutboxState};

    ghost Value = { OutboxState };

    ghost view = { λ o. record { slots = o.waiting.items; untold = o.untold; size = o.waiting.capacity } };

    ghost invariant = { λ o. o.waiting.capacity ≤ most_slots };
}

impl Outbox {
    /// An empty outbox with room for `slots` reports, 1 to 64.
    pub fn new(alloc: Global, slots: u32) -> Result<Outbox, NoMemory>
        requires { (1 ≤ slots) × (slots ≤ most_slots) }
        ensures { IfOk result (λ outbox. outbox ≡ empty_outbox slots) }
    {
        let waiting = HeapCircularBuffer::with_capacity(alloc, slots as usize)?;
        Ok(Outbox {
            waiting,
            untold: None,
        })
    }

    /// Whether fewer reports wait than there may.
    pub fn room(&self) -> bool
        ensures { result ≡ nat_lt (length self.now.slots) self.now.size }
    {
        self.waiting.len() < self.waiting.capacity()
    }

    /// How many reports wait.
    pub fn waiting(&self) -> u32
        ensures waiting { result ≡ length self.now.slots }
        ensures within { length self.now.slots ≤ self.now.size }
    {
        self.waiting.len() as u32
    }

    /// Whether no report waits and no notice is untold.
    pub fn is_empty(&self) -> bool
        ensures { IsTrue result ↔ ((self.now.slots ≡ []) × (self.now.untold ≡ None)) }
    {
        self.waiting.is_empty() && self.untold.is_none()
    }

    /// The notice that is untold, or none.
    pub fn untold(&self) -> Option<Notice>
        ensures { result ≡ self.now.untold }
    {
        self.untold
    }

    /// Puts a report at the end, into a slot that it takes. There must be room, and a free slot.
    pub fn push<P: Slots>(&mut self, slots: &mut P, report: &Report)
        requires room { length self.old.slots < self.old.size }
        requires free { 0 < free_of (P.pool slots.old) }
        requires words { most_report_words ≤ (P.pool slots.old).words }
        requires owned { AreOwned (P.pool slots.old) self.old.slots }
        ensures slots { self.new.slots ≡ self.old.slots ++ newest self.new.slots ∷ [] }
        ensures was_free { words_at (P.pool slots.old) (newest self.new.slots) ≡ None }
        ensures owned { AreOwned (P.pool slots.new) self.new.slots }
        ensures gained { Gains report.entry.now (P.pool slots.old) self.old.slots (P.pool slots.new) self.new.slots }
        ensures others { ChangesOnly (newest self.new.slots) (P.pool slots.old) (P.pool slots.new) }
        ensures as_many { AreAsMany (P.pool slots.old) self.old.slots (P.pool slots.new) self.new.slots }
        ensures number { (P.pool slots.new).slots ≡ (P.pool slots.old).slots }
        ensures words { (P.pool slots.new).words ≡ (P.pool slots.old).words }
        ensures rest { P.rest slots.new ≡ P.rest slots.old }
        ensures untold { self.new.untold ≡ self.old.untold }
        ensures size { self.new.size ≡ self.old.size }
    {
        let slot = store(slots, report);
        self.waiting.push_back(slot);
    }

    /// Takes out the oldest report and gives its slot back, or else takes out the notice, which is void then. None if
    /// and only if neither is there.
    pub fn pop<P: Slots>(&mut self, slots: &mut P) -> Option<Told>
        requires wide { AreWide (P.pool slots.old) self.old.slots }
        requires owned { AreOwned (P.pool slots.old) self.old.slots }
        ensures told { IsToldNext result self.old.untold (P.pool slots.old) self.old.slots }
        ensures none { IsNone result ↔ ((self.old.slots ≡ []) × (self.old.untold ≡ None)) }
        ensures slots { self.new.slots ≡ drop 1 self.old.slots }
        ensures owned { AreOwned (P.pool slots.new) self.new.slots }
        ensures lost_first { LosesFirst (P.pool slots.old) self.old.slots (P.pool slots.new) self.new.slots }
        ensures others { GivesFirst (P.pool slots.old) (P.pool slots.new) self.old.slots }
        ensures as_many { AreAsMany (P.pool slots.old) self.old.slots (P.pool slots.new) self.new.slots }
        ensures number { (P.pool slots.new).slots ≡ (P.pool slots.old).slots }
        ensures words { (P.pool slots.new).words ≡ (P.pool slots.old).words }
        ensures rest { P.rest slots.new ≡ P.rest slots.old }
        ensures untold { self.new.untold ≡ notice_left self.old.slots self.old.untold }
        ensures size { self.new.size ≡ self.old.size }
    {
        if let Some(slot) = self.waiting.pop_front() {
            return Some(Told::Report(take_report(slots, slot)));
        }
        let notice = self.untold.take()?;
        Some(Told::Fault(notice))
    }

    // A ticket's content is large, and a flow makes one for each report: it is put where it stays.
    /// As `pop`, into the place of a ticket's content. A report must wait, or the notice be untold.
    pub fn pop_into<P: Slots>(&mut self, slots: &mut P, content: &mut Told)
        requires some { (self.old.slots ≡ []) × (self.old.untold ≡ None) → ⊥ }
        requires wide { AreWide (P.pool slots.old) self.old.slots }
        requires owned { AreOwned (P.pool slots.old) self.old.slots }
        ensures told { IsToldNext (Some content.new) self.old.untold (P.pool slots.old) self.old.slots }
        ensures lost_first { LosesFirst (P.pool slots.old) self.old.slots (P.pool slots.new) self.new.slots }
        ensures as_many { AreAsMany (P.pool slots.old) self.old.slots (P.pool slots.new) self.new.slots }
        ensures words { (P.pool slots.new).words ≡ (P.pool slots.old).words }
        ensures rest { P.rest slots.new ≡ P.rest slots.old }
        ensures untold { self.new.untold ≡ notice_left self.old.slots self.old.untold }
        ensures size { self.new.size ≡ self.old.size }
    {
        let Some(slot) = self.waiting.pop_front() else {
            self.move_notice(content);
            return;
        };
        take_content(slots, slot, content);
    }

    // A function of its own: few tickets call it, and it has a whole content in its frame.
    /// Makes the untold notice, which must be there, a ticket's content.
    #[inline(never)]
    fn move_notice(&mut self, content: &mut Told)
        requires { IsSome self.old.untold }
        ensures content { option_map Told.Fault self.old.untold ≡ Some content.new }
        ensures void { self.new ≡ record self.old { untold = None } }
    {
        let Some(notice) = self.untold.take() else {
            unreachable!()
        };
        *content = Told::Fault(notice);
    }

    /// Puts a slot at the end. There must be room.
    pub fn push_slot(&mut self, slot: Slot)
        requires { length self.old.slots < self.old.size }
        ensures { self.new ≡ record self.old { slots = self.old.slots ++ slot ∷ [] } }
    {
        self.waiting.push_back(slot);
    }

    /// Makes this notice the untold one.
    pub fn note(&mut self, notice: Notice)
        ensures { self.new ≡ record self.old { untold = Some notice } }
    {
        self.untold = Some(notice);
    }

    /// Makes an untold notice void.
    pub fn void(&mut self)
        ensures { self.new ≡ record self.old { untold = None } }
    {
        self.untold = None;
    }
}

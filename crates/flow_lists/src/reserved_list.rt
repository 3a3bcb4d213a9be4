//! Lists with reserved room, so that a later push takes no memory.
ghost use Rattle.std.specs.Prelude.{◌≡◌, ◌+◌, ◌-◌, ◌<◌, ◌≤◌, [], ◌∷◌, ◌++◌, length, slice_get, option_copied, IfOk};
ghost use Rattle.std.specs.Prelude.{OnOk, OnErr};

use ccp_base::{NoMemory, Sequence};
use std::alloc::Global;
use std::marker::Model;

/// A list with reserved memory for its next items, so that pushing them takes none.
#[derive(Drop)]
pub struct ReservedList<T> {
    items: Vec<T>,
}

impl<T> Model for ReservedList<T> {
    ghost use Rattle.std.specs.Prelude.{vec_capacity};
    ghost use Rattle.flow_lists.specs.ReservedLists.{ReservedState, reserved_code};

    ghost Value = { ReservedState T };

    ghost coded = { reserved_code T.code };

    ghost view = { λ r. record { items = r.items.items; room = vec_capacity r.items } };
}

impl<T> ReservedList<T> {
    /// The empty list, with memory for at least that number of items.
    pub fn with_room(alloc: Global, n: usize) -> Result<ReservedList<T>, NoMemory>
        ensures items { IfOk result (λ list. list.items ≡ []) }
        ensures room { IfOk result (λ list. n ≤ list.room) }
    {
        let items = Vec::with_capacity(alloc, n)?;
        Ok(ReservedList { items })
    }

    /// The items in order.
    pub fn as_slice(&self) -> &[T]
        ensures { result.now ≡ self.now.items }
    {
        self.items.as_slice()
    }

    /// How many items the list has.
    pub fn len(&self) -> usize
        ensures len { result ≡ length self.now.items }
        ensures within { length self.now.items ≤ self.now.room }
    {
        self.items.len()
    }

    /// The last item; None if and only if the list is empty.
    pub fn last(&self) -> Option<&T>
        ensures { option_copied result ≡ slice_get self.now.items (length self.now.items - 1) }
    {
        self.items.last()
    }

    /// The plain list of the items, which takes no memory.
    pub fn into_sequence(self) -> Sequence<T>
        ensures { result ≡ self.items }
    {
        Sequence::from_vec(self.items)
    }
}

impl<T: Drop> ReservedList<T> {
    /// Reserves memory for that number of items more than the list has.
    pub fn reserve(&mut self, n: usize) -> Result<(), NoMemory>
        ensures items { self.new.items ≡ self.old.items }
        ensures room { OnOk result (length self.new.items + n ≤ self.new.room) }
        ensures kept { self.old.room ≤ self.new.room }
        ensures unchanged { OnErr result (self.new ≡ self.old) }
    {
        self.items.reserve(n)?;
        Ok(())
    }

    /// Puts an item at the list's end, for which there must be room. It takes no memory.
    pub fn push(&mut self, item: T)
        requires { length self.old.items < self.old.room }
        ensures items { self.new.items ≡ self.old.items ++ item ∷ [] }
        ensures room { self.new.room ≡ self.old.room }
        ensures whole { self.new ≡ record self.old { items = self.old.items ++ item ∷ [] } }
    {
        self.items.push_reserved(item);
    }
}

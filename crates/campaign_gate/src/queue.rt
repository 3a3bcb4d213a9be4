//! A first-in, first-out queue for the items that workers make.
ghost use Rattle.std.specs.Prelude.{◌≡◌, [], ◌∷◌, ◌++◌, OnOk, drop, slice_get};

use ccp_base::NoMemory;
use std::alloc::Global;
use std::collections::VecDeque;
use std::marker::Model;

/// Items that are put at the end and taken from the front.
#[derive(Drop)]
pub(crate) struct Queue<T> {
    items: VecDeque<T>,
}

impl<T> Model for Queue<T> {
    ghost use Rattle.std.specs.Prelude.{List};

    ghost Value = { List T };

    ghost view = { λ q. q.items.items };
}

impl<T> Queue<T> {
    /// The empty queue.
    pub(crate) fn new(alloc: Global) -> Self
        ensures { result ≡ [] }
    {
        Queue {
            items: VecDeque::new(alloc),
        }
    }

    /// The items of a `Vec`, the first at the front.
    pub(crate) fn from_vec(items: Vec<T>) -> Self
        ensures { result ≡ items.items }
    {
        Queue {
            items: VecDeque::from_vec(items),
        }
    }
}

impl<T: Drop> Queue<T> {
    /// Puts an item at the end.
    pub(crate) fn put(&mut self, item: T) -> Result<(), NoMemory>
        ensures { OnOk result (self.new ≡ self.old ++ item ∷ []) }
    {
        self.items.push_back(item)?;
        Ok(())
    }

    /// Takes the item at the front.
    pub(crate) fn take(&mut self) -> Option<T>
        ensures item { result ≡ slice_get self.old 0 }
        ensures rest { self.new ≡ drop 1 self.old }
    {
        self.items.pop_front()
    }
}

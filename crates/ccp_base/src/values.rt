//! Lists of at most 64 numbers, held in place, such as a report's fields.
ghost use Rattle.std.specs.Prelude.{◌≡◌, ◌↔◌, IsTrue, ◌<◌, ◌≤◌, ◌++◌, ◌∷◌, [], length, slice_get};
ghost use Rattle.ccp_base.specs.Limits.{most_fields};

use std::marker::Model;

/// The most numbers that a `Values` holds.
pub const VALUES: u32 = 64;

/// A list of at most 64 numbers, held in place.
#[derive(Clone, Copy, PartialEq, Eq, Debug)]
pub struct Values {
    numbers: [u64; 64],
    count: u32,
}

impl Model for Values {
    ghost use Rattle.std.specs.Prelude.{ℕ, List, take, length};
    ghost use Rattle.ccp_base.specs.InPlace.{IsPadded, pad, pad-held, length-held};

    ghost Value = { List ℕ };

    ghost view = { λ v. take v.count v.numbers };

    ghost invariant = { λ v. IsPadded 64 0 v.numbers v.count };

    ghost inverse = { λ xs. record { numbers = pad 64 0 xs; count = length xs } };

    ghost inverse_ok = { λ a h. λ i.
        record { numbers = pad-held 64 0 a.numbers a.count h i; count = length-held 64 0 a.numbers a.count h i } };
}

impl Values {
    /// The empty list.
    pub fn new() -> Self
        ensures { result ≡ [] }
    {
        Values {
            numbers: [0; 64],
            count: 0,
        }
    }

    /// The list of these numbers, at most 64.
    pub fn from_slice(numbers: &[u64]) -> Self
        requires { length numbers.now ≤ most_fields }
        ensures { result ≡ numbers.now }
    {
        let mut values = Values::new();
        for number in numbers {
            values.push(*number);
        }
        values
    }

    /// How many numbers the list has.
    pub fn len(&self) -> u32
        ensures len { result ≡ length self.now }
        ensures within { length self.now ≤ most_fields }
    {
        self.count
    }

    /// Whether the list has no numbers.
    pub fn is_empty(&self) -> bool
        ensures { IsTrue result ↔ (self.now ≡ []) }
    {
        self.count == 0
    }

    /// Appends a number.
    pub fn push(&mut self, value: u64)
        requires { length self.old < most_fields }
        ensures { self.new ≡ self.old ++ value ∷ [] }
    {
        self.numbers[self.count as usize] = value;
        self.count += 1;
    }

    /// The numbers in order.
    pub fn as_slice(&self) -> &[u64]
        ensures items { result.now ≡ self.now }
        ensures within { length self.now ≤ most_fields }
    {
        &self.numbers[..self.count as usize]
    }

    /// The number at a place, counted from 0; None exactly if the list isn't that long.
    pub fn get(&self, i: u32) -> Option<u64>
        ensures { result ≡ slice_get self.now i }
    {
        if i < self.count {
            Some(self.numbers[i as usize])
        } else {
            None
        }
    }
}

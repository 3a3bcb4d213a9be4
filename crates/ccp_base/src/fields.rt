//! The values that a change or an update writes, each with its register: at most 66, held in place.
ghost use Rattle.std.specs.Prelude.{◌≡◌, ◌↔◌, IsTrue, ◌<◌, ◌≤◌, ◌++◌, ◌∷◌, [], IfSome, length, slice_get};
ghost use Rattle.ccp_base.specs.FieldReg.{Pair, pair_of, is_bad, first_bad_pair};
ghost use Rattle.ccp_base.specs.Limits.{most_pairs};

use std::marker::Model;

/// The most pairs that a `Fields` holds: the 64 control variables, `Cwnd` and `Rate`.
pub const PAIRS: u32 = 66;

/// What a change or an update of a program can write.
#[derive(Clone, Copy, PartialEq, Eq)]
pub enum FieldReg {
    /// The congestion window, in bytes.
    Cwnd,
    /// The pacing rate, in bytes a second.
    Rate,
    /// A control variable by its number in order of declaration.
    Control(u8),
}

impl FieldReg {
    /// Whether this is a control variable, numbered `controls` or above.
    pub fn is_bad(self, controls: usize) -> bool
        ensures { result ≡ is_bad controls self }
    {
        match self {
            FieldReg::Control(i) => usize::from(i) >= controls,
            FieldReg::Cwnd | FieldReg::Rate => false,
        }
    }
}

/// A list of at most 66 values to be written, each with what it is written to, held in place.
#[derive(Clone, Copy, PartialEq, Eq)]
pub struct Fields {
    pairs: [(FieldReg, u64); 66],
    count: u32,
}

impl Model for Fields {
    ghost use Rattle.std.specs.Prelude.{ℕ, List, take, length};
    ghost use Rattle.ccp_base.specs.InPlace.{IsPadded, pad, pad-held, length-held};
    ghost use Rattle.ccp_base.specs.FieldReg.{Pair, blank};

    ghost Value = { List Pair };

    ghost view = { λ f. take f.count f.pairs };

    ghost invariant = { λ f. IsPadded 66 blank f.pairs f.count };

    ghost inverse = { λ xs. record { pairs = pad 66 blank xs; count = length xs } };

    ghost inverse_ok = { λ a h. λ i.
        record { pairs = pad-held 66 blank a.pairs a.count h i; count = length-held 66 blank a.pairs a.count h i } };
}

impl Fields {
    /// The empty list.
    pub fn new() -> Self
        ensures { result ≡ [] }
    {
        Fields {
            pairs: [(FieldReg::Cwnd, 0); 66],
            count: 0,
        }
    }

    /// How many pairs the list has.
    pub fn len(&self) -> u32
        ensures len { result ≡ length self.now }
        ensures within { length self.now ≤ most_pairs }
    {
        self.count
    }

    /// Whether the list has no pairs.
    pub fn is_empty(&self) -> bool
        ensures { IsTrue result ↔ (self.now ≡ []) }
    {
        self.count == 0
    }

    /// Appends a pair.
    pub fn push(&mut self, reg: FieldReg, value: u64)
        requires { length self.old < most_pairs }
        ensures { self.new ≡ self.old ++ pair_of reg value ∷ [] }
    {
        self.pairs[self.count as usize] = (reg, value);
        self.count += 1;
    }

    /// The pair at a place, counted from 0; None exactly if the list isn't that long.
    pub fn get(&self, i: u32) -> Option<(FieldReg, u64)>
        ensures { result ≡ slice_get self.now i }
    {
        if i < self.count {
            Some(self.pairs[i as usize])
        } else {
            None
        }
    }

    /// The pairs in order.
    pub fn as_slice(&self) -> &[(FieldReg, u64)]
        ensures items { result.now ≡ self.now }
        ensures within { length self.now ≤ most_pairs }
    {
        &self.pairs[..self.count as usize]
    }

    /// Makes the list empty.
    pub fn clear(&mut self)
        ensures { self.new ≡ [] }
    {
        *self = Fields::new();
    }
    /// The place, counted from 0, of the first pair that names a control variable numbered `controls` or above; None if
    /// no pair does.
    pub fn first_bad(&self, controls: usize) -> Option<u32>
        ensures { result ≡ first_bad_pair controls self.now }
    {
        let place = place_of_bad(controls, self.as_slice())?;
        Some(place as u32)
    }
}

// A function of its own: a search followed by `?` isn't proved in one function.
fn place_of_bad(controls: usize, pairs: &[(FieldReg, u64)]) -> Option<usize>
    ensures place { result ≡ first_bad_pair controls pairs.now }
    ensures within { IfSome result (λ i. i < length pairs.now) }
{
    pairs.iter().position(|pair| pair.0.is_bad(controls))
}

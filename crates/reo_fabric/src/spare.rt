//! A list of places that has its memory from the start.
ghost use Rattle.std.specs.Prelude.{◌≡◌, ◌≤◌, ◌<◌, [], ◌∷◌, ◌++◌, length, IfOk, vec_len, vec_capacity, ◌+◌};

use reo_value::Value;
use std::alloc::{AllocError, Global};
use std::marker::Model;

/// Places with values, and room for `most` of them.
#[derive(Drop)]
pub(crate) struct Spare {
    places: Vec<(u32, Value)>,
    most: usize,
}

impl Model for Spare {
    ghost use Rattle.std.specs.Prelude.{◌≤◌, vec_len, vec_capacity};
    ghost use Rattle.reo_fabric.specs.inside.Spare.{SpareState};

    ghost Value = { SpareState };

    ghost view = { λ s. record { places = s.places.items; most = s.most } };

    ghost invariant = { λ s. (vec_len s.places ≤ s.most) × (s.most ≤ vec_capacity s.places) };
}

impl Spare {
    pub(crate) fn new(alloc: Global, most: usize) -> Result<Spare, AllocError>
        ensures places { IfOk result (λ spare. spare.places ≡ []) }
        ensures most { IfOk result (λ spare. spare.most ≡ most) }
    {
        let places = Vec::with_capacity(alloc, most)?;
        Ok(Spare { places, most })
    }

    pub(crate) fn as_slice(&self) -> &[(u32, Value)]
        ensures { result.now ≡ self.now.places }
    {
        self.places.as_slice()
    }

    pub(crate) fn clear(&mut self)
        ensures { self.new ≡ record self.old { places = [] } }
    {
        self.places.clear();
    }

    pub(crate) fn push(&mut self, place: u32, value: Value)
        requires { length self.old.places < self.old.most }
        ensures { self.new ≡ record self.old { places = self.old.places ++ (place, value) ∷ [] } }
    {
        push_reserved(&mut self.places, place, value);
    }
}

// Appends one place for which there is capacity.
fn push_reserved(places: &mut Vec<(u32, Value)>, place: u32, value: Value)
    requires { vec_len places.old < vec_capacity places.old }
    ensures items { places.new.items ≡ places.old.items ++ (place, value) ∷ [] }
    ensures len { vec_len places.new ≡ vec_len places.old + 1 }
    ensures capacity { vec_capacity places.old ≤ vec_capacity places.new }
{
    let Ok(()) = places.push((place, value)) else {
        unreachable!();
    };
}

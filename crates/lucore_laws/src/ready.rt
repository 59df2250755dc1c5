//! The places that are ready, least first.

ghost use Rattle.std.specs.Prelude.{◌≡◌, ◌≤◌, ◌∷◌, [], All, IfOk, IfNone, IfSome, IsPermutation, OnOk};

use std::alloc::{AllocError, Global};
use std::cmp::Reverse;
use std::collections::BinaryHeap;
use std::marker::Model;

/// Places that are ready. A contract sees the list of them, in an order of the heap's own.
#[derive(Drop)]
pub struct Ready {
    heap: BinaryHeap<Reverse<usize>>,
}

impl Model for Ready {
    ghost use Rattle.std.specs.Prelude.{List, ℕ, map};
    ghost use Rattle.std.specs.Ordering.{nat_cmp};
    ghost use Rattle.std.specs.BinaryHeap.{IsHeap, heap_items};

    ghost Value = { List ℕ };

    ghost view = { λ r. map (λ x. x.0) (heap_items r.heap) };

    ghost invariant = { λ r. IsHeap (λ x y. nat_cmp y.0 x.0) (heap_items r.heap) };
}

impl Ready {
    /// No place is ready; there is room for so many.
    pub fn none(alloc: Global, room: usize) -> Result<Ready, AllocError>
        ensures { IfOk result (λ ready. ready ≡ []) }
    {
        let heap = BinaryHeap::with_capacity(alloc, room)?;
        Ok(Ready { heap })
    }

    /// One more place is ready. After an error nothing is known.
    pub fn push(&mut self, place: usize) -> Result<(), AllocError>
        ensures { OnOk result (IsPermutation (place ∷ self.old) self.new) }
    {
        self.heap.push(Reverse(place))?;
        Ok(())
    }

    /// The least place that is ready, which then isn't here any longer.
    pub fn pop(&mut self) -> Option<usize>
        ensures taken { IfSome result (λ x. IsPermutation self.old (x ∷ self.new)) }
        ensures least { IfSome result (λ x. All (λ y. x ≤ y) self.old) }
        ensures none { IfNone result (self.old ≡ []) }
    {
        let Reverse(place) = self.heap.pop()?;
        Some(place)
    }
}

//! Names in a row, looked up by a table.

ghost use Rattle.std.specs.Prelude.{◌≡◌, ◌↔◌, Some, map, Contains, IfOk, IsTrue, slice_get};
ghost use Rattle.lubase.specs.Places.{first_place, looked_up, IsPlaces};

use std::alloc::{AllocError, Global};
use std::collections::BTreeMap;
use std::marker::Model;

/// Names in a row, lent, with a table of where each stands first. A contract sees the names, in order.
pub struct Places<'a> {
    names: Vec<&'a str>,
    index: BTreeMap<&'a str, usize>,
}

// By hand, so that it is proved here alone, and not in each crate that owns one.
impl Drop for Places<'_> {
    fn drop(self) {
        let Self { names: _, index: _ } = self;
    }
}

impl<'a> Model for Places<'a> {
    ghost use Rattle.std.specs.Prelude.{ℕ, List, map};

    ghost Value = { List (List ℕ) };

    ghost use Rattle.lubase.specs.Places.{looked_up, IsPlaces};

    ghost view = { λ p. map (λ n. n.now) p.names.items };

    ghost invariant = { λ p. IsPlaces (looked_up p.index) (map (λ n. n.now) p.names.items) };
}

/// The place of the first of each name.
fn index_of<'a>(alloc: Global, names: &[&'a str]) -> Result<BTreeMap<&'a str, usize>, AllocError>
    ensures { IfOk result (λ m. IsPlaces (looked_up m) (map (λ n. n.now) names.now)) }
{
    let mut index = BTreeMap::new(alloc);
    for i in (0..names.len()).rev() {
        index.insert(names[i], i)?;
    }
    Ok(index)
}

impl<'a> Places<'a> {
    /// The table of these names. Its time grows with their length, whatever they are.
    pub fn new(alloc: Global, names: Vec<&'a str>) -> Result<Places<'a>, AllocError>
        ensures { IfOk result (λ places. places ≡ map (λ n. n.now) names.entry.items) }
    {
        let index = index_of(alloc, &names)?;
        Ok(Places { names, index })
    }

    /// Where a name stands first, counted from 0. Takes no memory.
    pub fn find(&self, name: &str) -> Option<usize>
        ensures { result ≡ first_place self.now name.now }
    {
        self.index.get(name).copied()
    }

    /// Whether a name is one of these.
    pub fn has(&self, name: &str) -> bool
        ensures { IsTrue result ↔ Contains self.now name.now }
    {
        self.find(name).is_some()
    }
}

//! Who reads each place.

ghost use Rattle.std.specs.Prelude.{◌≡◌, ◌<◌, ◌++◌, ◌∷◌, [], ℕ, All, IfOk, OnOk, length, slice_set};
ghost use Rattle.luflow.specs.Rank.{row};
ghost use Rattle.lucore_laws.specs.Rank.{AreClosed};
ghost use Rattle.lucore_laws.specs.Search.{AreReaders, IsAdded};

use lubase::Row;
use std::alloc::{AllocError, Global};
use std::marker::Model;

/// For each place the list of its readers, each as often as it reads the place. A contract sees the lists.
#[derive(Drop)]
pub struct Readers {
    lists: Vec<Vec<usize>>,
}

impl Model for Readers {
    ghost use Rattle.std.specs.Prelude.{List, ℕ, map};

    ghost Value = { List (List ℕ) };

    ghost view = { λ r. map (λ list. list.items) r.lists.items };
}

/// How many readers each place has, as far as that can be counted: the room for its list.
fn rooms(alloc: Global, rows: &[Row<usize>]) -> Result<Vec<usize>, AllocError>
    requires { AreClosed rows.now }
    ensures { IfOk result (λ rooms. length rooms.items ≡ length rows.now) }
{
    let mut rooms = vec![in alloc; 0usize; rows.len()]?;
    for reads in rows {
        for read in reads.as_slice() {
            rooms[*read] = rooms[*read].saturating_add(1);
        }
    }
    Ok(rooms)
}

impl Readers {
    /// Empty lists, with room for so many readers each.
    fn none(alloc: Global, rooms: &[usize]) -> Result<Readers, AllocError>
        ensures long { IfOk result (λ readers. length readers ≡ length rooms.now) }
        ensures empty { IfOk result (λ readers. (x : ℕ) → row readers x ≡ []) }
    {
        let mut lists = Vec::with_capacity(alloc, rooms.len())?;
        for room in rooms {
            lists.push(Vec::with_capacity(alloc, *room)?)?;
        }
        Ok(Readers { lists })
    }

    /// One more reader of a place.
    fn push(&mut self, place: usize, reader: usize) -> Result<(), AllocError>
        requires { place < length self.old }
        ensures { OnOk result (self.new ≡ slice_set self.old place
            (row self.old place ++ reader ∷ [])) }
    {
        self.lists[place].push(reader)?;
        Ok(())
    }

    /// A place is put into the list of each of its reads.
    fn add(&mut self, reader: usize, reads: &[usize]) -> Result<(), AllocError>
        requires { All (λ y. y < length self.old) reads.now }
        ensures { OnOk result (IsAdded reader reads.now self.old self.new) }
    {
        for read in reads {
            self.push(*read, reader)?;
        }
        Ok(())
    }

    /// The readers of all places. After an error nothing is left.
    pub fn of_rows(alloc: Global, rows: &[Row<usize>]) -> Result<Readers, AllocError>
        requires { AreClosed rows.now }
        ensures { IfOk result (AreReaders rows.now) }
    {
        let rooms = rooms(alloc, rows)?;
        let mut readers = Readers::none(alloc, &rooms)?;
        for (place, reads) in rows.iter().enumerate() {
            readers.add(place, reads.as_slice())?;
        }
        Ok(readers)
    }

    /// The readers of a place.
    pub fn of(&self, place: usize) -> &[usize]
        requires { place < length self.now }
        ensures { result.now ≡ row self.now place }
    {
        self.lists[place].as_slice()
    }
}

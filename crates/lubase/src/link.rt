//! Links, and the lists of what each number is linked to.

ghost use Rattle.std.specs.Prelude.{◌≡◌, ◌≢◌, ◌<◌, ◌++◌, ◌∷◌, ◌↔◌, [], ℕ, length, All, Contains, IfOk, OnOk};
ghost use Rattle.lubase.specs.Graph.{row_of};
ghost use Rattle.lubase.specs.Reach.{IsWithin};
ghost use Rattle.lubase.specs.ReachStates.{HasRows};

use std::alloc::{AllocError, Global};

/// A link from one number to another.
#[derive(Clone, Copy)]
pub struct Link {
    pub from: usize,
    pub to: usize,
}

/// Appends a number to one of the lists.
fn push_at(rows: &mut Vec<Vec<usize>>, place: usize, value: usize) -> Result<(), AllocError>
    requires { place < length rows.old.items }
    ensures long { OnOk result (length rows.new.items ≡ length rows.old.items) }
    ensures pushed { OnOk result (row_of rows.new.items place ≡ row_of rows.old.items place
        ++ value ∷ []) }
    ensures others { OnOk result ((other : ℕ) → other ≢ place → row_of rows.new.items other
        ≡ row_of rows.old.items other) }
{
    rows[place].push(value)?;
    Ok(())
}

/// As many empty lists as `size`.
fn empty_rows(alloc: Global, size: usize) -> Result<Vec<Vec<usize>>, AllocError>
    ensures long { IfOk result (λ rows. length rows.items ≡ size) }
    ensures empty { IfOk result (λ rows. (v : ℕ) → row_of rows.items v ≡ []) }
{
    let mut rows = Vec::with_capacity(alloc, size)?;
    for _ in 0..size {
        rows.push(Vec::new(alloc))?;
    }
    Ok(rows)
}

/// For each number below `size` the list of those that it is linked to.
pub fn rows_of(alloc: Global, size: usize, links: &[Link]) -> Result<Vec<Vec<usize>>, AllocError>
    requires { All (IsWithin size) links.now }
    ensures long { IfOk result (λ rows. length rows.items ≡ size) }
    ensures linked { IfOk result (λ rows. HasRows rows.items links.now) }
{
    let mut rows = empty_rows(alloc, size)?;
    for link in links {
        push_at(&mut rows, link.from, link.to)?;
    }
    Ok(rows)
}

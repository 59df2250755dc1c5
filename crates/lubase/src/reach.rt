//! The search.

ghost use Rattle.std.specs.Prelude.{◌≡◌, ◌<◌, ◌↔◌, ℕ, [], length, All, IfOk, OnOk};
ghost use Rattle.lubase.specs.Graph.{row_of};
ghost use Rattle.lubase.specs.Search.{Has, Lacks};
ghost use Rattle.lubase.specs.Reach.{IsWithin, IsReached};
ghost use Rattle.lubase.specs.ReachStates.{HasRows, IsEntered, IsSearching};

use crate::link::{Link, rows_of};
use std::alloc::{AllocError, Global};

/// The list of a number.
fn row_at(rows: &[Vec<usize>], v: usize) -> &[usize]
    requires { v < length rows.now }
    ensures { result.now ≡ row_of rows.now v }
{
    rows[v].as_slice()
}

/// No marks.
fn no_marks(alloc: Global, size: usize) -> Result<Vec<bool>, AllocError>
    ensures long { IfOk result (λ marks. length marks.items ≡ size) }
    ensures none { IfOk result (λ marks. (v : ℕ) → Lacks marks.items v) }
{
    let marks = vec![in alloc; false; size]?;
    Ok(marks)
}

/// Marks the numbers of a row, and puts those that had no mark on the stack.
fn enter(row: &[usize], marks: &mut Vec<bool>, stack: &mut Vec<usize>) -> Result<(), AllocError>
    requires { All (λ v. v < length marks.old.items) row.now }
    ensures { OnOk result (IsEntered row.now marks.old.items marks.new.items stack.old.items
        stack.new.items) }
{
    for v in row {
        if marks[*v] {
            continue;
        }
        marks[*v] = true;
        stack.push(*v)?;
    }
    Ok(())
}

/// For each number below `size` whether links lead to it from a start. The time grows with `size` and the
/// number of links.
///
/// # Errors
///
/// An error means that memory ran out.
pub fn reached(
    alloc: Global,
    size: usize,
    starts: &[usize],
    links: &[Link],
) -> Result<Vec<bool>, AllocError>
    requires starts { All (λ v. v < size) starts.now }
    requires links { All (IsWithin size) links.now }
    ensures long { IfOk result (λ marks. length marks.items ≡ size) }
    ensures exact { IfOk result (λ marks. (v : ℕ) → Has marks.items v
        ↔ IsReached starts.now links.now v) }
{
    let rows = rows_of(alloc, size, links)?;
    let mut marks = no_marks(alloc, size)?;
    let mut stack = Vec::with_capacity(alloc, size)?;
    enter(starts, &mut marks, &mut stack)?;
    while let Some(v) = stack.pop() {
        enter(row_at(&rows, v), &mut marks, &mut stack)?;
    }
    Ok(marks)
}

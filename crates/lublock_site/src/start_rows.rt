//! What a site has before its first block: its rows, and its columns of statuses, which are empty.

ghost use Rattle.std.specs.Prelude.{◌≡◌, [], All, IfOk, map};
ghost use Rattle.lublock_site.specs.Starts.{IsFirstBoard, first_span};

use crate::code_marks::Marks;
use crate::parts::is_marked;
use lublock::{Board, empty_columns};
use lublock_kernels::span::Span;
use luflow::{Flat, Status};
use std::alloc::{AllocError, Global};

/// How far a flow is before the first block, which is marked as taken or not.
fn first_span(mark: bool) -> Span
    ensures { result ≡ first_span mark }
{
    Span {
        ticks: 0,
        upto: 0,
        was: false,
        known: false,
        supposed: false,
        taken: mark,
    }
}

/// How far each flow is before the first block.
fn first_spans(alloc: Global, taken: &[bool]) -> Result<Vec<Span>, AllocError>
    ensures { IfOk result (λ spans. spans.items ≡ map first_span taken.now) }
{
    let mut spans = Vec::with_capacity(alloc, taken.len())?;
    for mark in taken {
        spans.push(first_span(*mark))?;
    }
    Ok(spans)
}

/// A row for each flow, with room for blocks of so many instants where the flow is computed or taken, and
/// empty for the others.
fn first_rows(alloc: Global, marks: &Marks, instants: usize) -> Result<Vec<Vec<i64>>, AllocError> {
    let own = marks.own.as_slice();
    let taken = marks.taken.as_slice();
    let mut rows = Vec::with_capacity(alloc, own.len())?;
    for i in 0..own.len() {
        let row = if is_marked(own, i) || is_marked(taken, i) {
            vec![in alloc; 0i64; instants.saturating_add(1)]?
        } else {
            Vec::new(alloc)
        };
        rows.push(row)?;
    }
    Ok(rows)
}

/// The board of a site before its first block, with room for blocks of so many instants.
///
/// # Errors
///
/// Out of memory.
pub fn first_board(alloc: Global, marks: &Marks, instants: usize) -> Result<Board, AllocError>
    ensures { IfOk result (IsFirstBoard marks.now.taken.items) }
{
    let rows = first_rows(alloc, marks, instants)?;
    let spans = first_spans(alloc, marks.taken.as_slice())?;
    Ok(Board { rows, spans })
}

/// How many statuses of a main variable are kept at most: of an output those of all instants, of another
/// variable those of a block.
fn room_for(flat: &Flat, v: usize, all: usize, block: usize) -> usize {
    match flat.variables().get(v) {
        Some(variable) if variable.role.is_output() => all,
        _ => block,
    }
}

/// An empty column for each main variable, in which those that are kept have their room already.
///
/// # Errors
///
/// Out of memory.
pub fn first_columns(
    alloc: Global,
    flat: &Flat,
    needs: &[usize],
    all: usize,
    block: usize,
) -> Result<Vec<Vec<Status>>, AllocError>
    ensures { IfOk result (λ x. All (λ column. column.items ≡ []) x.items) }
{
    let mut columns = empty_columns(alloc, flat.variables().len())?;
    for k in 0..needs.len() {
        let v = needs[k];
        if v < columns.len() {
            columns[v] = Vec::with_capacity(alloc, room_for(flat, v, all, block))?;
        }
    }
    Ok(columns)
}

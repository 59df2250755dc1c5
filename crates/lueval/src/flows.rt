//! The columns of chosen flows.

ghost use Rattle.std.specs.Prelude.{◌≡◌, ◌<◌, ◌≤◌, ◌↔◌, [], ℕ, true, All, Contains, IfOk, Some, slice_get, vec_capacity};
ghost use Rattle.lueval_lines.specs.Columns.{AreEmpty, AreKept};

use lueval_lines::empty_columns;
use luflow::Status;
use std::alloc::{AllocError, Global};

/// Whether the stream of a flow is wanted.
fn is_wanted(wanted: &[bool], flow: usize) -> bool
    ensures { (result ≡ true) ↔ (slice_get wanted.now flow ≡ Some true) }
{
    match wanted.get(flow) {
        Some(mark) => *mark,
        None => false,
    }
}

/// The numbers of the flows whose streams are wanted, of so many, in order.
pub fn kept_flows(alloc: Global, count: usize, wanted: &[bool]) -> Result<Vec<usize>, AllocError>
    ensures kept { IfOk result (λ kept. AreKept count kept.items) }
    ensures all { IfOk result (λ kept. (i : ℕ) → i < count → slice_get wanted.now i ≡ Some true
        → Contains kept.items i) }
{
    let mut kept = Vec::new(alloc);
    for i in 0..count {
        if is_wanted(wanted, i) {
            kept.push(i)?;
        }
    }
    Ok(kept)
}

fn new_column(alloc: Global, instants: u32) -> Result<Vec<Status>, AllocError>
    ensures empty { IfOk result (λ x. x.items ≡ []) }
    ensures room { IfOk result (λ x. instants ≤ vec_capacity x) }
{
    Ok(Vec::with_capacity(alloc, instants as usize)?)
}

/// As many columns, of which those that are kept are empty, with room for all instants.
pub fn new_columns(
    alloc: Global,
    count: usize,
    kept: &[usize],
    instants: u32,
) -> Result<Vec<Vec<Status>>, AllocError>
    requires { All (λ v. v < count) kept.now }
    ensures { IfOk result (λ x. AreEmpty count kept.now instants x.items) }
{
    let mut columns = empty_columns(alloc, count)?;
    for k in 0..kept.len() {
        columns[kept[k]] = new_column(alloc, instants)?;
    }
    Ok(columns)
}

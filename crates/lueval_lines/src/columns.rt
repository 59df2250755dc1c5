//! The statuses of the main variables so far, column by column.

ghost use Rattle.std.specs.Prelude.{◌≡◌, ◌<◌, ◌≤◌, ◌+◌, [], All, IfOk, length, slice_get, vec_capacity};
ghost use Rattle.std.specs.Option.{ForSome};
ghost use Rattle.luflow.specs.Solution.{solution};
ghost use Rattle.lueval_lines.specs.Cells.{statuses};
ghost use Rattle.lueval_lines.specs.Columns.{AreNew, AreEmpty, AreColumns, AreKept, AreAllKept, AreOnlyWanted, AreShown, IsLonger, is_wanted};

use crate::cell::{Cell, status};
use luflow::{Flat, Inputs, Role, Status, Variable};
use std::alloc::{AllocError, Global};

/// Which main variables' streams are kept.
#[derive(Clone, Copy, Drop)]
pub enum Wanted {
    All,
    Outputs,
}

/// The streams that are kept, as far as they are known.
#[derive(Drop)]
pub struct Notes {
    /// The numbers of the main variables whose streams are kept.
    pub kept: Vec<usize>,
    /// A column for each main variable; of those that are kept, its statuses so far.
    pub columns: Vec<Vec<Status>>,
}

impl Notes {
    /// Before the first instant, with room for all instants.
    pub fn new(
        alloc: Global,
        variables: &[Variable],
        wanted: Wanted,
        instants: u32,
    ) -> Result<Notes, AllocError>
        ensures new { IfOk result (AreNew variables.now instants) }
        ensures all { IfOk result (λ notes. AreAllKept wanted variables.now notes.kept.items) }
        ensures only { IfOk result (λ notes. AreOnlyWanted wanted variables.now notes.kept.items) }
    {
        let kept = kept_of(alloc, variables, wanted)?;
        let columns = new_columns(alloc, variables.len(), kept.as_slice(), instants)?;
        Ok(Notes { kept, columns })
    }
}

/// Whether the stream of a variable of this role is kept.
fn is_wanted(wanted: Wanted, role: Role) -> bool
    ensures { result ≡ is_wanted wanted role }
{
    match (wanted, role) {
        (Wanted::All, _) => true,
        (Wanted::Outputs, Role::Output) => true,
        _ => false,
    }
}

/// The numbers of the variables whose streams are kept, in order.
pub fn kept_of(
    alloc: Global,
    variables: &[Variable],
    wanted: Wanted,
) -> Result<Vec<usize>, AllocError>
    ensures kept { IfOk result (λ kept. AreKept (length variables.now) kept.items) }
    ensures all { IfOk result (λ kept. AreAllKept wanted variables.now kept.items) }
    ensures only { IfOk result (λ kept. AreOnlyWanted wanted variables.now kept.items) }
{
    let mut kept = Vec::with_capacity(alloc, variables.len())?;
    for v in 0..variables.len() {
        if is_wanted(wanted, variables[v].role) {
            kept.push_reserved(v);
        }
    }
    Ok(kept)
}

/// As many empty columns.
///
/// # Errors
///
/// Out of memory.
pub fn empty_columns(alloc: Global, count: usize) -> Result<Vec<Vec<Status>>, AllocError>
    ensures len { IfOk result (λ x. length x.items ≡ count) }
    ensures empty { IfOk result (λ x. All (λ column. column.items ≡ []) x.items) }
{
    let mut columns = Vec::with_capacity(alloc, count)?;
    for _v in 0..count {
        columns.push_reserved(Vec::new(alloc));
    }
    Ok(columns)
}

fn new_column(alloc: Global, instants: u32) -> Result<Vec<Status>, AllocError>
    ensures empty { IfOk result (λ x. x.items ≡ []) }
    ensures room { IfOk result (λ x. instants ≤ vec_capacity x) }
{
    Ok(Vec::with_capacity(alloc, instants as usize)?)
}

/// As many columns, of which those that are kept are empty, with room for all instants.
pub fn new_columns(
    alloc: Global,
    count: usize,
    kept: &[usize],
    instants: u32,
) -> Result<Vec<Vec<Status>>, AllocError>
    requires { All (λ v. v < count) kept.now }
    ensures { IfOk result (λ x. AreEmpty count kept.now instants x.items) }
{
    let mut columns = empty_columns(alloc, count)?;
    for k in 0..kept.len() {
        columns[kept[k]] = new_column(alloc, instants)?;
    }
    Ok(columns)
}

/// Adds a status to column v.
fn push_status(columns: &mut Vec<Vec<Status>>, v: usize, status: Status)
    requires within { v < length columns.old.items }
    requires room { ForSome (slice_get columns.old.items v) (λ x. length x.items < vec_capacity x) }
    ensures { ForSome (slice_get columns.old.items v)
        (λ x. IsLonger columns.old.items v x status columns.new.items) }
{
    let column = &mut columns[v];
    column.push_reserved(status);
}

/// Adds the status at instant t of each main variable that is kept.
pub fn note(
    flat: &Flat,
    inputs: &Inputs,
    kept: &[usize],
    shown: &[Cell],
    columns: &mut Vec<Vec<Status>>,
    t: u32,
)
    requires instant { t < inputs.now.instants }
    requires kept { AreKept (length columns.old.items) kept.now }
    requires mains { length columns.old.items ≤ length shown.now }
    requires shown { AreShown (solution flat.now inputs.now) (statuses shown.now) t }
    requires columns { AreColumns inputs.now (solution flat.now inputs.now) kept.now
        columns.old.items t }
    ensures columns { AreColumns inputs.now (solution flat.now inputs.now) kept.now
        columns.new.items (t + 1) }
    ensures len { length columns.new.items ≡ length columns.old.items }
{
    for k in 0..kept.len() {
        push_status(columns, kept[k], status(shown[kept[k]]));
    }
}

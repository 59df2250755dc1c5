//! What a site that has ended leaves of the outputs.

ghost use Rattle.std.specs.Prelude.{◌≡◌, ◌<◌, ◌≤◌, [], length, IfSome, vec_capacity};
ghost use Rattle.lublock_site.specs.Reporting.{AreLess, AreOutputRows, IsOutputRow, IsTakenOut};

use luflow::Status;
use std::alloc::Global;
use std::mem;

/// Takes a column out.
fn take_out(alloc: Global, columns: &mut Vec<Vec<Status>>, v: usize) -> Vec<Status>
    requires { v < length columns.old.items }
    ensures { IsTakenOut columns.old.items v result columns.new.items }
{
    mem::replace(&mut columns[v], Vec::new(alloc))
}

/// The row of an output: its column, where it is here, and an empty one elsewhere. None where the column
/// hasn't so many statuses.
fn output_row(
    alloc: Global,
    columns: &mut Vec<Vec<Status>>,
    output: Option<usize>,
    instants: usize,
) -> Option<Vec<Status>>
    ensures row { IfSome result (IsOutputRow columns.old.items instants output) }
    ensures less { AreLess columns.old.items columns.new.items }
{
    let Some(v) = output else {
        return Some(Vec::new(alloc));
    };
    if columns.len() <= v {
        return None;
    }
    let row = take_out(alloc, columns, v);
    if row.len() != instants {
        return None;
    }
    Some(row)
}

/// A row for each of these outputs, put where there is room for rows. None where a row isn't whole.
pub fn output_rows(
    alloc: Global,
    outputs: &[Option<usize>],
    columns: Vec<Vec<Status>>,
    rows: Vec<Vec<Status>>,
    instants: usize,
) -> Option<Vec<Vec<Status>>>
    requires empty { rows.items ≡ [] }
    requires room { length outputs.now ≤ vec_capacity rows }
    ensures { IfSome result (λ xs. AreOutputRows columns.items instants outputs.now xs.items) }
{
    let mut columns = columns;
    let mut rows = rows;
    for k in 0..outputs.len() {
        let row = output_row(alloc, &mut columns, outputs[k], instants)?;
        rows.push_reserved(row);
    }
    Some(rows)
}

//! A table cut to its first instants.

ghost use Rattle.std.specs.Prelude.{◌≡◌, ◌≤◌, All, IfOk, length, map};
ghost use Rattle.luflow.specs.Packed.{data_in};
ghost use Rattle.luflow.specs.Tables.{column_view, columns_view};
ghost use Rattle.luchart.specs.Cut.{cut, cut_column};

use luflow::{Inputs, Values};
use std::alloc::{AllocError, Global};

/// The first values of a column.
fn cut_column(
    alloc: Global,
    column: &(String, Values),
    instants: usize,
) -> Result<(String, Values), AllocError>
    requires { instants ≤ length (data_in column.now.1) }
    ensures { IfOk result (λ x. column_view x ≡ cut_column instants (column_view column.now)) }
{
    let name = String::from_str(alloc, column.0.as_str())?;
    let values = column.1.first(alloc, instants)?;
    Ok((name, values))
}

/// The first values of each column.
fn cut_columns(
    alloc: Global,
    columns: &[(String, Values)],
    instants: usize,
) -> Result<Vec<(String, Values)>, AllocError>
    requires { All (λ x. instants ≤ length (data_in x.1)) columns.now }
    ensures { IfOk result (λ x. columns_view x.items
        ≡ map (cut_column instants) (columns_view columns.now)) }
{
    let mut cut = Vec::with_capacity(alloc, columns.len())?;
    for column in columns {
        cut.push(cut_column(alloc, column, instants)?)?;
    }
    Ok(cut)
}

/// So many instants of a table, the first ones.
///
/// # Errors
///
/// `AllocError` where memory ran out.
pub fn cut(alloc: Global, inputs: &Inputs, instants: u32) -> Result<Inputs, AllocError>
    requires { instants ≤ inputs.now.instants }
    ensures { IfOk result (λ x. x ≡ cut instants inputs.now) }
{
    inputs.recall_invariant();
    let columns = cut_columns(alloc, inputs.columns(), instants as usize)?;
    match Inputs::new(instants, columns) {
        Some(table) => Ok(table),
        None => unreachable!(),
    }
}

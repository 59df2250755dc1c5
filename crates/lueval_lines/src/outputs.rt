//! The main variables' streams by name: those of the outputs, and all.

ghost use Rattle.std.specs.Prelude.{◌≡◌, ◌++◌, ◌∷◌, [], IfOk, OnOk, length};
ghost use Rattle.luflow.specs.Tables.{outputs_view};
ghost use Rattle.luflow.specs.Variables.{is_output};
ghost use Rattle.lueval_lines.specs.Columns.{lists_of};
ghost use Rattle.lueval_lines.specs.Outputs.{output_in, outputs_in, columns_in};

use luflow::{Status, Variable};
use std::alloc::{AllocError, Global};
use std::mem;

/// Takes the stream of a variable where the variable is an output.
fn take_output(
    alloc: Global,
    outputs: &mut Vec<(String, Vec<Status>)>,
    x: &Variable,
    column: &mut Vec<Status>,
) -> Result<(), AllocError>
    ensures { OnOk result (outputs_view outputs.new.items ≡ outputs_view outputs.old.items
        ++ output_in x.now column.old.items) }
{
    if x.role.is_output() {
        let name = String::from_str(alloc, x.name.as_str())?;
        let statuses = mem::replace(column, Vec::new(alloc));
        outputs.push((name, statuses))?;
        return Ok(());
    }
    Ok(())
}

/// The outputs by name, in order of declaration, each with its stream, of which none is copied.
pub fn taken_outputs(
    alloc: Global,
    variables: &[Variable],
    columns: Vec<Vec<Status>>,
) -> Result<Vec<(String, Vec<Status>)>, AllocError>
    requires { length variables.now ≡ length columns.items }
    ensures { IfOk result (λ x. outputs_view x.items ≡ outputs_in variables.now
        (lists_of columns.items)) }
{
    let mut left = columns;
    let mut outputs = Vec::new(alloc);
    for v in 0..variables.len() {
        take_output(alloc, &mut outputs, &variables[v], &mut left[v])?;
    }
    Ok(outputs)
}

/// Takes the stream of a variable.
fn take_column(
    alloc: Global,
    named: &mut Vec<(String, Vec<Status>)>,
    x: &Variable,
    column: &mut Vec<Status>,
) -> Result<(), AllocError>
    ensures { OnOk result (outputs_view named.new.items ≡ outputs_view named.old.items
        ++ record { name = x.now.name; statuses = column.old.items } ∷ []) }
{
    let name = String::from_str(alloc, x.name.as_str())?;
    let statuses = mem::replace(column, Vec::new(alloc));
    named.push((name, statuses))?;
    Ok(())
}

/// All variables by name, in order of declaration, each with its stream, of which none is copied.
pub fn taken_columns(
    alloc: Global,
    variables: &[Variable],
    columns: Vec<Vec<Status>>,
) -> Result<Vec<(String, Vec<Status>)>, AllocError>
    requires { length variables.now ≡ length columns.items }
    ensures { IfOk result (λ x. outputs_view x.items ≡ columns_in variables.now
        (lists_of columns.items)) }
{
    let mut left = columns;
    let mut named = Vec::with_capacity(alloc, variables.len())?;
    for v in 0..variables.len() {
        take_column(alloc, &mut named, &variables[v], &mut left[v])?;
    }
    Ok(named)
}

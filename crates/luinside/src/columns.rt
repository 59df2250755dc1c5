//! The columns of variables of instances.

ghost use Rattle.std.specs.Prelude.{◌≡◌, ◌<◌, true, All, IfOk, OnOk, IfErr, Some, length, map, slice_get};
ghost use Rattle.luflow.specs.Program.{flows_of};
ghost use Rattle.luflow.specs.Sound.{IsFit};
ghost use Rattle.luflow.specs.Tables.{output_view, outputs_view};
ghost use Rattle.lueval_lines.specs.Columns.{lists_of};
ghost use Rattle.lueval.specs.Whole.{HasNoFault, IsAnswer};
ghost use Rattle.luinside.specs.Columns.{AreFlowColumns};
ghost use Rattle.luinside.specs.Passing.{column_by};

use crate::variables::DeepVariable;
use lueval::{EvalError, whole_flows};
use luflow::{Flat, Inputs, Outputs, Status};
use std::alloc::{AllocError, Global};

/// A mark for each of so many flows: whether some variable has it.
fn marks(alloc: Global, count: usize, variables: &[DeepVariable]) -> Result<Vec<bool>, AllocError>
    requires { All (λ d. d.flow < count) variables.now }
    ensures { IfOk result (λ marks. All (λ d. slice_get marks.items d.flow ≡ Some true) variables.now) }
{
    let mut marks = vec![in alloc; false; count]?;
    for k in 0..variables.len() {
        marks[variables[k].flow] = true;
    }
    Ok(marks)
}

/// The column of a variable, copied.
fn column(
    alloc: Global,
    variable: &DeepVariable,
    streams: &[Vec<Status>],
) -> Result<(String, Vec<Status>), AllocError>
    requires { variable.now.flow < length streams.now }
    ensures { IfOk result (λ column. output_view column ≡ column_by (lists_of streams.now)
        variable.now) }
{
    let stream = streams[variable.flow].as_slice();
    let name = String::from_str(alloc, variable.variable.name.as_str())?;
    let mut statuses = Vec::with_capacity(alloc, stream.len())?;
    statuses.extend_from_slice(stream)?;
    Ok((name, statuses))
}

/// The columns of variables, in order.
fn columns(
    alloc: Global,
    variables: &[DeepVariable],
    streams: &[Vec<Status>],
) -> Result<Vec<(String, Vec<Status>)>, AllocError>
    requires { All (λ d. d.flow < length streams.now) variables.now }
    ensures { IfOk result (λ columns. outputs_view columns.items
        ≡ map (column_by (lists_of streams.now)) variables.now) }
{
    let mut columns = Vec::new(alloc);
    for k in 0..variables.len() {
        columns.push(column(alloc, &variables[k], streams)?)?;
    }
    Ok(columns)
}

/// Evaluates the whole program at a table, and gives the streams of variables of instances: by name, in their
/// order, each with its stream in the only solution; or the first fault. The memory is twice a status for
/// each of them and each instant, and a fixed amount for each flow.
///
/// # Errors
///
/// Those of [`lueval::whole`].
pub fn deep_columns(
    alloc: Global,
    flat: &Flat,
    inputs: &Inputs,
    variables: &[DeepVariable],
) -> Result<Outputs, EvalError>
    requires fit { IsFit flat.now inputs.now }
    requires some { 0 < length variables.now }
    requires inside { All (λ d. d.flow < flows_of flat.now) variables.now }
    ensures columns { IfOk result (AreFlowColumns flat.now inputs.now variables.now) }
    ensures no_fault { OnOk result (HasNoFault flat.now inputs.now) }
    ensures fault { IfErr result (IsAnswer flat.now inputs.now) }
{
    flat.recall_invariant();
    let wanted = marks(alloc, flat.flows().len(), variables)?;
    let streams = whole_flows(alloc, flat, inputs, wanted.as_slice())?;
    let columns = columns(alloc, variables, streams.as_slice())?;
    match Outputs::new(columns) {
        Some(columns) => Ok(columns),
        None => unreachable!(),
    }
}

//! A whole run, block after block.

ghost use Rattle.std.specs.Prelude.{◌≡◌, ◌≤◌, ◌<◌, ◌+◌, ℕ, length, false, true, IfErr, IfOk, IfSome, OnOk, Some, slice_get};
ghost use Rattle.luflow.specs.Variables.{is_output, outputs_of};
ghost use Rattle.luflow.specs.Program.{flows_of};
ghost use Rattle.luflow.specs.Sound.{IsFit};
ghost use Rattle.luflow.specs.FlatLaws.{HasOneSolution};
ghost use Rattle.luflow.specs.declared.variable.Variable.{Variable};
ghost use Rattle.lueval.specs.Whole.{AreWholeOutputs, HasNoFault, IsAnswer, KeepsAllTypes};
ghost use Rattle.lublock.specs.Shown.{Column, IsRun, StandsAt};

use crate::board::Board;
use crate::reported::{clear_others, show_flows};
use lublock_plan::{Plan, needed};
use lueval::{EvalError, taken_outputs, whole_outputs};
use lueval_lines::empty_columns;
use luflow::{Flat, Inputs, Outputs, Status, Variable};
use std::alloc::{AllocError, Global};

/// The instants of a block.
const INSTANTS: usize = 256;

/// Works out a block, puts out what it has, and makes the board ready for the next; whether something isn't
/// there.
fn go(
    alloc: Global,
    flat: &Flat,
    inputs: &Inputs,
    plan: &mut Plan,
    needs: &[usize],
    board: &mut Board,
    columns: &mut Vec<Vec<Status>>,
    t: usize,
    len: usize,
) -> Result<bool, AllocError>
    requires fit { IsFit flat.now inputs.now }
    requires flows { length board.old.spans.items ≡ flows_of flat.now }
    requires within { t + len ≤ inputs.now.instants }
    ensures flows { IfOk result (λ none. none ≡ false
        → length board.new.spans.items ≡ length board.old.spans.items) }
    ensures len { IfOk result (λ none. none ≡ false
        → length columns.new.items ≡ length columns.old.items) }
    ensures stands { IfOk result (λ none. none ≡ false
        → StandsAt flat.now inputs.now t board.old columns.old.items
        → StandsAt flat.now inputs.now (t + len) board.new columns.new.items) }
{
    if board.work(alloc, flat, inputs, plan, t, len) {
        return Ok(true);
    }
    if show_flows(alloc, flat, board, columns, needs, t, len)? {
        return Ok(true);
    }
    board.renew(flat);
    clear_others(flat, columns);
    Ok(false)
}

/// The columns of a whole run, if it could be worked out in blocks.
fn run(alloc: Global, flat: &Flat, inputs: &Inputs) -> Result<Option<Vec<Vec<Status>>>, AllocError>
    requires { IsFit flat.now inputs.now }
    ensures { IfOk result (λ columns. IfSome columns (λ x. IsRun flat.now inputs.now x.items)) }
{
    let instants = inputs.instants() as usize;
    let room = if instants < INSTANTS {
        instants
    } else {
        INSTANTS
    };
    let mut plan = Plan::new(alloc, flat, room)?;
    let needs = needed(alloc, flat)?;
    let mut board = Board::new(alloc, flat.flows().len(), room)?;
    let mut columns = empty_columns(alloc, flat.variables().len())?;
    let mut t = 0;
    while t < instants {
        let left = instants - t;
        let len = if left < INSTANTS { left } else { INSTANTS };
        let members = needs.as_slice();
        if go(
            alloc,
            flat,
            inputs,
            &mut plan,
            members,
            &mut board,
            &mut columns,
            t,
            len,
        )? {
            return Ok(None);
        }
        t += len;
    }
    Ok(Some(columns))
}

/// Whether the columns of all outputs have so many statuses.
fn are_whole(variables: &[Variable], columns: &[Vec<Status>], instants: usize) -> bool
    requires { length variables.now ≡ length columns.now }
    ensures { result ≡ true → (v : ℕ) (x : Variable) (column : Column)
        → slice_get variables.now v ≡ Some x → is_output x.role ≡ true
        → slice_get columns.now v ≡ Some column → length column.items ≡ instants }
{
    for v in 0..variables.len() {
        if variables[v].role.is_output() && columns[v].len() != instants {
            return false;
        }
    }
    true
}

/// The outputs among the columns of a whole run.
fn reported(
    alloc: Global,
    flat: &Flat,
    inputs: &Inputs,
    columns: Vec<Vec<Status>>,
) -> Result<Outputs, EvalError>
    requires fit { IsFit flat.now inputs.now }
    requires some { 0 < length (outputs_of flat.now.variables) }
    requires run { IsRun flat.now inputs.now columns.items }
    requires whole { (v : ℕ) (x : Variable) (column : Column)
        → slice_get flat.now.variables v ≡ Some x → is_output x.role ≡ true
        → slice_get columns.items v ≡ Some column
        → length column.items ≡ inputs.now.instants }
    ensures outputs { IfOk result (AreWholeOutputs flat.now inputs.now) }
    ensures memory { IfErr result (λ e. e ≡ EvalError.OutOfMemory) }
{
    flat.recall_invariant();
    let outputs = taken_outputs(alloc, flat.variables(), columns)?;
    match Outputs::new(outputs) {
        Some(outputs) => Ok(outputs),
        None => unreachable!(),
    }
}

/// Evaluates the whole program at a table, as [`whole_outputs`] does, in blocks of instants where it can: its
/// outputs by name, in order of declaration, each with its stream in the only solution; or the first fault.
/// The memory is a status for each output and instant, and a fixed amount for each flow.
///
/// # Errors
///
/// Those of [`whole_outputs`].
pub fn block_outputs(alloc: Global, flat: &Flat, inputs: &Inputs) -> Result<Outputs, EvalError>
    requires fit { IsFit flat.now inputs.now }
    requires some { 0 < length (outputs_of flat.now.variables) }
    ensures only { HasOneSolution flat.now inputs.now }
    ensures outputs { IfOk result (AreWholeOutputs flat.now inputs.now) }
    ensures no_fault { OnOk result (HasNoFault flat.now inputs.now) }
    ensures fault { IfErr result (IsAnswer flat.now inputs.now) }
    ensures tidy { KeepsAllTypes flat.now inputs.now }
{
    flat.recall_invariant();
    let instants = inputs.instants() as usize;
    match run(alloc, flat, inputs)? {
        Some(columns) if are_whole(flat.variables(), columns.as_slice(), instants) => {
            reported(alloc, flat, inputs, columns)
        }
        _ => whole_outputs(alloc, flat, inputs),
    }
}

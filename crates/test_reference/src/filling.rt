//! All marks of a program, by instants in order and in each by flows in order of rank.

ghost use Rattle.std.specs.Prelude.{◌≡◌, ◌<◌, IfOk, length};
ghost use Rattle.test_reference.specs.Filled.{IsFilled, IsFilledTo, IsWhole};

use crate::grid::Grid;
use crate::looking::says;
use luflow::{Flat, Inputs};
use luplace::Job;
use std::alloc::{AllocError, Global};

/// Fills the cells of an instant, those of all earlier instants being filled.
fn fill_instant(flat: &Flat, inputs: &Inputs, grid: &mut Grid, instant: u32)
    requires filled { IsFilled flat.now inputs.now grid.old instant }
    requires instant_in { instant < grid.old.instants }
    ensures filled { IsFilledTo flat.now inputs.now grid.new instant (length flat.now.order) }
    ensures instants { grid.new.instants ≡ grid.old.instants }
{
    let flows = flat.flows();
    for place in flat.rank() {
        let mark = says(inputs, grid, &flows[*place], instant);
        grid.set(*place, instant, mark);
    }
}

/// The grid of all marks at the first instants.
pub fn filled(
    alloc: Global,
    flat: &Flat,
    inputs: &Inputs,
    instants: u32,
) -> Result<Grid, AllocError>
    ensures filled { IfOk result (λ grid. IsFilled flat.now inputs.now grid instants) }
    ensures sized { IfOk result (λ grid. grid.instants ≡ instants) }
{
    let mut grid = Grid::new(alloc, flat.flows().len(), instants)?;
    for instant in 0..instants {
        fill_instant(flat, inputs, &mut grid, instant);
    }
    Ok(grid)
}

/// The grid of all marks of a job, at the instants of its table.
pub fn whole(alloc: Global, job: &Job) -> Result<Grid, AllocError>
    ensures { IfOk result (IsWhole job.now) }
{
    filled(alloc, job.plan().flat(), job.inputs(), job.instants())
}

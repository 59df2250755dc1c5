//! The marks of a program.

ghost use Rattle.std.specs.Prelude.{◌≡◌, IfOk, map};
ghost use Rattle.std.specs.List.{range_with_len};
ghost use Rattle.luflow.specs.Program.{flows_of};
ghost use Rattle.luflow.specs.Messages.{marks};
ghost use Rattle.luflow.specs.Solution.{solution};

use crate::filling::filled;
use crate::mark::Marks;
use luflow::{Flat, Inputs};
use std::alloc::{AllocError, Global};

/// For each flow, by place, what it has at the first `count` instants in the one solution of the program at
/// the table.
pub fn marks_of(
    alloc: Global,
    flat: &Flat,
    inputs: &Inputs,
    count: u32,
) -> Result<Vec<Marks>, AllocError>
    ensures { IfOk result (λ rows. rows.items ≡ map (λ i. marks (solution flat.now inputs.now i)
        count) (range_with_len 0 (flows_of flat.now))) }
{
    let grid = filled(alloc, flat, inputs, count)?;
    let mut rows = Vec::new(alloc);
    for flow in 0..flat.flows().len() {
        rows.push(grid.marks(alloc, flow)?)?;
    }
    Ok(rows)
}

//! The operator of the first fault.

ghost use Rattle.std.specs.Prelude.{IfOk};
ghost use Rattle.lutree.specs.Tree.{program_view};
ghost use Rattle.luflow.specs.Sound.{IsFit};
ghost use Rattle.lucore.specs.Result.{IsFlatOf};
ghost use Rattle.luinside.specs.First.{TellsFirst};

use crate::sites::{FaultSite, operator_at};
use lueval::{FoundFault, fault_place};
use luflow::{Flat, Inputs};
use lustat::Checked;
use std::alloc::{AllocError, Global};

/// The first fault of a program at a table, in the order of instants and, in one instant, of ranks.
#[derive(Drop)]
pub struct FirstFault {
    /// Its flow, its instant and its kind, and the data of its operands.
    pub found: FoundFault,
    /// Its operator in the text of the program.
    pub site: FaultSite,
}

/// The first fault of a program at a table and its operator, given the flat program; none where there is
/// none.
///
/// # Errors
///
/// An error means that memory ran out.
pub fn first_fault(
    alloc: Global,
    program: &Checked,
    flat: &Flat,
    inputs: &Inputs,
) -> Result<Option<FirstFault>, AllocError>
    requires flat { IsFlatOf (program_view program.now.program) program.now.main flat.now }
    requires fit { IsFit flat.now inputs.now }
    ensures { IfOk result (TellsFirst (program_view program.now.program) program.now.main flat.now
        inputs.now) }
{
    flat.recall_invariant();
    let Some(found) = fault_place(alloc, flat, inputs)? else {
        return Ok(None);
    };
    match operator_at(alloc, program, found.place)? {
        Some(site) => Ok(Some(FirstFault { found, site })),
        None => unreachable!(),
    }
}

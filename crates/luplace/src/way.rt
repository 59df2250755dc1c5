//! The way of a run.

ghost use Rattle.std.specs.Prelude.{◌≡◌, ◌<◌, ◌+◌, ◌^◌, ◌⊎◌, ℕ, false, length, slice_index_or, Contains, IfOk};
ghost use Rattle.luplace.specs.Sent.{marked, AreSentNils};
ghost use Rattle.luplace.specs.Ways.{IsSent, IsInitialised, IsPartedVariable, IsSentNil, AreAll, IsWayOf};

use crate::Plan;
use crate::layers::layers_of;
use crate::marking::mark;
use crate::nils::{class_in, least_nils};
use lubase::{Row, cycles_of};
use std::alloc::{AllocError, Global};

/// In which way a run goes.
pub enum Way {
    /// By rows: each site works in blocks of instants.
    Rows,
    /// Item by item, since some cycle is parted over sites: the main variables on such cycles, in order of
    /// place.
    Parted(Row<usize>),
    /// Item by item, since a link carries what may have no value at first: the main variables that are sent
    /// and may be nil, in order of place. No cycle is parted then.
    Nil(Row<usize>),
}

impl Drop for Way {
    fn drop(self) {
        match self {
            Self::Rows | Self::Parted(_) | Self::Nil(_) => {}
        }
    }
}

fn is_marked(marks: &[bool], i: usize) -> bool
    ensures { result ≡ slice_index_or marks.now i false }
{
    match marks.get(i) {
        Some(mark) => *mark,
        None => false,
    }
}

/// The numbers below `count` of which the marks from a place on say.
fn marked(
    alloc: Global,
    marks: &[bool],
    from: usize,
    count: usize,
) -> Result<Vec<usize>, AllocError>
    requires { from + count < 2 ^ 32 }
    ensures { IfOk result (λ vs. vs.items ≡ marked marks.now from count) }
{
    let mut places = Vec::new(alloc);
    for v in 0..count {
        if is_marked(marks, from + v) {
            places.push(v)?;
        }
    }
    Ok(places)
}

/// The main variables on parted cycles, in order.
fn parted_of(alloc: Global, plan: &Plan) -> Result<Vec<usize>, AllocError>
    ensures { IfOk result (λ vs. AreAll (IsPartedVariable plan.now) vs.items) }
{
    let flat = plan.flat();
    let flows = flat.flows().len();
    let rows = layers_of(alloc, plan)?;
    let cycles = cycles_of(alloc, rows.as_slice())?;
    let variables = flat.variables().len();
    Ok(marked(alloc, cycles.as_slice(), flows + flows, variables)?)
}

/// Marks of the flows that are sent and may be nil.
fn sent_nils(alloc: Global, plan: &Plan, nils: &[bool]) -> Result<Vec<bool>, AllocError>
    ensures { IfOk result (λ marks. AreSentNils plan.now nils.now (length plan.now.links)
        marks.items) }
{
    let mut marks = vec![in alloc; false; plan.flat().flows().len()]?;
    for link in plan.links() {
        if class_in(nils, link.flow) {
            mark(&mut marks, link.flow);
        }
    }
    Ok(marks)
}

/// The main variables that are sent and may be nil, in order.
fn nils_of(alloc: Global, plan: &Plan) -> Result<Vec<usize>, AllocError>
    ensures all { IfOk result (λ vs. AreAll (IsSentNil plan.now) vs.items) }
    ensures others { IfOk result (λ vs. (v : ℕ) → IsSent plan.now v
        → Contains vs.items v ⊎ IsInitialised plan.now.flat v) }
{
    let flat = plan.flat();
    let nils = least_nils(alloc, flat)?;
    let marks = sent_nils(alloc, plan, nils.as_slice())?;
    let variables = flat.variables().len();
    Ok(marked(alloc, marks.as_slice(), 0, variables)?)
}

/// The way of a plan's runs: by rows where no cycle of flows is parted over sites and no flow that a link
/// carries may be nil at first, and else which main variables are in the way. The time grows with the number
/// of reads and links.
///
/// # Errors
///
/// Out of memory; nothing is kept.
pub fn way_of(alloc: Global, plan: &Plan) -> Result<Way, AllocError>
    ensures { IfOk result (IsWayOf plan.now) }
{
    plan.recall_invariant();
    let parted = parted_of(alloc, plan)?;
    if !parted.is_empty() {
        return Ok(Way::Parted(Row::new(parted)));
    }
    let nils = nils_of(alloc, plan)?;
    if !nils.is_empty() {
        return Ok(Way::Nil(Row::new(nils)));
    }
    Ok(Way::Rows)
}

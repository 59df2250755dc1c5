//! The graph that shows parted cycles.

ghost use Rattle.std.specs.Prelude.{◌≡◌, ◌<◌, ◌≤◌, ◌+◌, ◌++◌, All, IfOk, OnOk, map};
ghost use Rattle.lubase.specs.Limits.{most_flows};
ghost use Rattle.luflow.specs.Program.{flows_of};
ghost use Rattle.luworld.specs.Needs.{flow_sites};
ghost use Rattle.luplace.specs.Layers.{same_sites, away, first_row, second_row, third_row, HasMore, AreLayers};

use crate::Plan;
use crate::named::named_of;
use lubase::number_at;
use std::alloc::{AllocError, Global};

/// The sites of a flow.
fn sites_at(plan: &Plan, i: usize) -> &[u8]
    ensures { result.now ≡ flow_sites plan.now i }
{
    let flat = plan.flat();
    let variable = number_at(flat.owners(), i);
    if variable < flat.variables().len() {
        plan.sites_of(variable)
    } else {
        &[]
    }
}

/// Whether two flows stand at the same sites.
fn same_sites(plan: &Plan, i: usize, j: usize) -> bool
    ensures { result ≡ same_sites plan.now i j }
{
    sites_at(plan, i) == sites_at(plan, j)
}

/// Those of these flows that stand at other sites than flow i.
fn away(alloc: Global, plan: &Plan, i: usize, reads: &[usize]) -> Result<Vec<usize>, AllocError>
    ensures { IfOk result (λ those. those.items ≡ away plan.now i reads.now) }
{
    let mut those = Vec::new(alloc);
    for r in reads {
        if !same_sites(plan, i, *r) {
            those.push(*r)?;
        }
    }
    Ok(those)
}

/// These numbers more, each raised.
fn put_raised(row: &mut Vec<usize>, by: usize, numbers: &[usize]) -> Result<(), AllocError>
    requires few { by ≤ most_flows }
    requires small { All (λ r. r < most_flows) numbers.now }
    ensures { OnOk result (row.new.items ≡ row.old.items ++ map (λ r. by + r) numbers.now) }
{
    for number in numbers {
        row.push(by + *number)?;
    }
    Ok(())
}

/// What a vertex of the first layer points to.
fn first_row(alloc: Global, plan: &Plan, i: usize) -> Result<Vec<usize>, AllocError>
    ensures { IfOk result (λ row. row.items ≡ first_row plan.now i) }
{
    let flat = plan.flat();
    let flows = flat.flows().len();
    let mut row = named_of(alloc, flat, i)?;
    let away = away(alloc, plan, i, row.as_slice())?;
    put_raised(&mut row, flows, away.as_slice())?;
    Ok(row)
}

/// What a vertex of the second layer points to.
fn second_row(alloc: Global, plan: &Plan, i: usize) -> Result<Vec<usize>, AllocError>
    requires { i < flows_of plan.now.flat }
    ensures { IfOk result (λ row. row.items ≡ second_row plan.now i) }
{
    let flat = plan.flat();
    let flows = flat.flows().len();
    let reads = named_of(alloc, flat, i)?;
    let mut row = Vec::new(alloc);
    put_raised(&mut row, flows, reads.as_slice())?;
    row.push(flows + flows + i)?;
    Ok(row)
}

/// What a vertex of the third layer points to.
fn third_row(alloc: Global, i: usize) -> Result<Vec<usize>, AllocError>
    ensures { IfOk result (λ row. row.items ≡ third_row i) }
{
    let mut row = Vec::new(alloc);
    row.push(i)?;
    Ok(row)
}

/// The vertices of the first layer.
#[tactic(auto, using(crate::proofs::Growing::more_none, crate::proofs::Growing::more_push))]
fn put_first(rows: &mut Vec<Vec<usize>>, alloc: Global, plan: &Plan) -> Result<(), AllocError>
    ensures { OnOk result (HasMore (first_row plan.now) (flows_of plan.now.flat) rows.old.items
        rows.new.items) }
{
    for i in 0..plan.flat().flows().len() {
        rows.push(first_row(alloc, plan, i)?)?;
    }
    Ok(())
}

/// The vertices of the second layer.
#[tactic(auto, using(crate::proofs::Growing::more_none, crate::proofs::Growing::more_push))]
fn put_second(rows: &mut Vec<Vec<usize>>, alloc: Global, plan: &Plan) -> Result<(), AllocError>
    ensures { OnOk result (HasMore (second_row plan.now) (flows_of plan.now.flat) rows.old.items
        rows.new.items) }
{
    for i in 0..plan.flat().flows().len() {
        rows.push(second_row(alloc, plan, i)?)?;
    }
    Ok(())
}

/// The vertices of the third layer.
#[tactic(auto, using(crate::proofs::Growing::more_none, crate::proofs::Growing::more_push))]
fn put_third(rows: &mut Vec<Vec<usize>>, alloc: Global, plan: &Plan) -> Result<(), AllocError>
    ensures { OnOk result (HasMore third_row (flows_of plan.now.flat) rows.old.items
        rows.new.items) }
{
    for i in 0..plan.flat().flows().len() {
        rows.push(third_row(alloc, i)?)?;
    }
    Ok(())
}

/// The graph in which the third vertex of a flow reaches itself exactly where the flow is on a parted cycle.
#[tactic(auto, using(crate::proofs::Growing::layers_from))]
pub fn layers_of(alloc: Global, plan: &Plan) -> Result<Vec<Vec<usize>>, AllocError>
    ensures { IfOk result (λ rows. AreLayers plan.now rows.items) }
{
    let mut rows = Vec::new(alloc);
    put_first(&mut rows, alloc, plan)?;
    put_second(&mut rows, alloc, plan)?;
    put_third(&mut rows, alloc, plan)?;
    Ok(rows)
}

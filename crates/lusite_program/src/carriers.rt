//! The links of one site, by the flows that they carry.

ghost use Rattle.std.specs.Prelude.{◌≡◌, ◌≢◌, ℕ, ◌<◌, ◌&&◌, nat_eq, [], Option, Some, length, slice_get, IfOk, OnOk};
ghost use Rattle.std.specs.Option.{ForSome};
ghost use Rattle.lusite_program.specs.Carriers.{or_link, IsLonger, AreLonger, AreCarriers};

use crate::program::LinkNo;
use luplace::Plan;
use std::alloc::{AllocError, Global};
use std::mem;

/// The links of one site, by the flows that they carry.
#[derive(Drop)]
pub struct Carriers {
    /// For each place the link by which the site takes the flow.
    pub sources: Vec<Option<LinkNo>>,
    /// For each place the links by which the site sends the flow, in order.
    pub rows: Vec<Vec<LinkNo>>,
}

/// No source for any place.
fn no_sources(alloc: Global, flows: usize) -> Result<Vec<Option<LinkNo>>, AllocError>
    ensures len { IfOk result (λ v. length v.items ≡ flows) }
    ensures each { IfOk result
        (λ v. (i : ℕ) → ForSome (slice_get v.items i) (λ x. x ≡ Option.None)) }
{
    let mut sources = Vec::with_capacity(alloc, flows)?;
    for _i in 0..flows {
        sources.push_reserved(None);
    }
    Ok(sources)
}

/// An empty row for each place.
fn no_rows(alloc: Global, flows: usize) -> Result<Vec<Vec<LinkNo>>, AllocError>
    ensures len { IfOk result (λ v. length v.items ≡ flows) }
    ensures each { IfOk result (λ v. (i : ℕ) → ForSome (slice_get v.items i) (λ x. x.items ≡ [])) }
{
    let mut rows = Vec::with_capacity(alloc, flows)?;
    for _i in 0..flows {
        rows.push_reserved(Vec::new(alloc));
    }
    Ok(rows)
}

/// Notes a link as the source of a flow, if it is wanted and the flow has none.
fn note_source(sources: &mut Vec<Option<LinkNo>>, wanted: bool, flow: usize, link: LinkNo)
    ensures len { length sources.new.items ≡ length sources.old.items }
    ensures each { (i : ℕ) (x : Option ℕ) → slice_get sources.old.items i ≡ Some x
        → slice_get sources.new.items i ≡ Some (or_link x (nat_eq flow i && wanted) link) }
{
    if wanted && flow < sources.len() && sources[flow].is_none() {
        sources[flow] = Some(link);
    }
}

/// Adds a link to the row of a flow.
fn push_at(rows: &mut Vec<Vec<LinkNo>>, flow: usize, link: LinkNo) -> Result<(), AllocError>
    requires { flow < length rows.old.items }
    ensures { OnOk result (IsLonger rows.old.items flow link rows.new.items) }
{
    let row = &mut rows[flow];
    row.push(link)?;
    Ok(())
}

/// Adds a link to the row of a flow, if it is wanted.
fn note_row(
    rows: &mut Vec<Vec<LinkNo>>,
    wanted: bool,
    flow: usize,
    link: LinkNo,
) -> Result<(), AllocError>
    ensures { OnOk result (AreLonger rows.old.items
        (λ i. nat_eq flow i && wanted) link rows.new.items) }
{
    if wanted && flow < rows.len() {
        push_at(rows, flow, link)?;
    }
    Ok(())
}

/// The links of a site, in one pass over all links. A flow that the site doesn't send has an empty row, which
/// takes no memory.
pub fn carriers_of(
    alloc: Global,
    plan: &Plan,
    site: u8,
    flows: usize,
) -> Result<Carriers, AllocError>
    ensures { IfOk result
        (λ x. AreCarriers plan.now.links site flows x.sources.items x.rows.items) }
{
    let mut sources = no_sources(alloc, flows)?;
    let mut rows = no_rows(alloc, flows)?;
    let links = plan.links();
    for l in 0..links.len() {
        let link = links[l];
        note_source(&mut sources, link.to == site, link.flow, l);
        note_row(&mut rows, link.from == site, link.flow, l)?;
    }
    Ok(Carriers { sources, rows })
}

/// The row of a place, taken out.
pub fn take_row(alloc: Global, rows: &mut Vec<Vec<LinkNo>>, place: usize) -> Vec<LinkNo>
    requires { place < length rows.old.items }
    ensures row { slice_get rows.old.items place ≡ Some result }
    ensures rest { (i : ℕ) → i ≢ place → slice_get rows.new.items i ≡ slice_get rows.old.items i }
    ensures len { length rows.new.items ≡ length rows.old.items }
{
    let row = &mut rows[place];
    mem::replace(row, Vec::new(alloc))
}

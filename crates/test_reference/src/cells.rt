//! What a site does for a flow at an instant, and at the close.

ghost use Rattle.std.specs.Prelude.{◌≡◌, ◌<◌, IfOk, filter, map, nat_eq, option_map, slice_get};
ghost use Rattle.luworld.specs.Outline.{compute_items, flow_items, message_items, round_cell};
ghost use Rattle.luworld.specs.Jobs.{carriers, is_open, outline, receiver_of, streams_of};
ghost use Rattle.test_reference.specs.AsItem.{as_item};
ghost use Rattle.test_reference.specs.Filled.{IsWhole};

use crate::grid::Grid;
use crate::item::Item;
use crate::looking::clock_at;
use crate::plans::{carried, receiver_of};
use luflow::{Clock, Flow};
use luplace::{Job, Plan};
use std::alloc::{AllocError, Global};

fn is_open(tick: Option<bool>) -> bool
    ensures { result ≡ is_open tick }
{
    match tick {
        Some(b) => b,
        None => false,
    }
}

/// Whether a flow's clock is true at an instant of the table.
pub fn is_present(job: &Job, grid: &Grid, flow: usize, instant: u32) -> bool
    requires whole { IsWhole job.now grid.now }
    requires inside { instant < job.now.inputs.instants }
    ensures { result ≡ (outline job.now (streams_of job.now)).present flow instant }
{
    match clock_of(job.plan().flat().flows(), flow) {
        Some(clock) => is_open(clock_at(job.inputs(), grid, clock, instant)),
        None => false,
    }
}

fn clock_of(flows: &[Flow], flow: usize) -> Option<Clock>
    ensures { result ≡ option_map (λ f. f.clock) (slice_get flows.now flow) }
{
    match flows.get(flow) {
        Some(found) => Some(found.clock),
        None => None,
    }
}

/// The links of a flow, by number.
fn carriers(alloc: Global, plan: &Plan, flow: usize) -> Result<Vec<usize>, AllocError>
    ensures { IfOk result (λ links. links.items ≡ carriers plan.now flow) }
{
    (0..plan.links().len())
        .filter(|link| carried(plan, *link) == flow)
        .collect(alloc)
}

fn puts(alloc: Global, links: &[usize]) -> Result<Vec<Item>, AllocError>
    ensures { IfOk result (λ items. items.items ≡ map (λ link. Item.Put link) links.now) }
{
    links
        .iter()
        .map(|link| Item::Put { link: *link })
        .collect(alloc)
}

fn takes(alloc: Global, plan: &Plan, site: u8, links: &[usize]) -> Result<Vec<Item>, AllocError>
    ensures { IfOk result (λ items. items.items ≡ map (λ link. Item.Take link)
        (filter (λ link. nat_eq (receiver_of plan.now link) site) links.now)) }
{
    links
        .iter()
        .copied()
        .filter(|link| receiver_of(plan, *link) == site)
        .map(|link| Item::Take { link })
        .collect(alloc)
}

/// What a site does for one message of a flow on each link.
fn message_items(alloc: Global, job: &Job, site: u8, flow: usize) -> Result<Vec<Item>, AllocError>
    ensures { IfOk result (λ items. map as_item items.items
        ≡ message_items (outline job.now (streams_of job.now)) site flow) }
{
    let plan = job.plan();
    let links = carriers(alloc, plan, flow)?;
    if plan.home(flow) == site {
        puts(alloc, links.as_slice())
    } else {
        takes(alloc, plan, site, links.as_slice())
    }
}

fn compute_items(
    alloc: Global,
    job: &Job,
    site: u8,
    flow: usize,
    instant: u32,
) -> Result<Vec<Item>, AllocError>
    ensures { IfOk result (λ items. map as_item items.items
        ≡ compute_items (outline job.now (streams_of job.now)) site flow instant) }
{
    if job.plan().stands(flow, site) {
        Ok(vec![in alloc; Item::Compute { flow, instant }]?)
    } else {
        Ok(Vec::new(alloc))
    }
}

/// What a site does for a flow at an instant at which it is present.
fn flow_items(
    alloc: Global,
    job: &Job,
    site: u8,
    flow: usize,
    instant: u32,
) -> Result<Vec<Item>, AllocError>
    ensures { IfOk result (λ items. map as_item items.items
        ≡ flow_items (outline job.now (streams_of job.now)) site flow instant) }
{
    let mut items = compute_items(alloc, job, site, flow, instant)?;
    let more = message_items(alloc, job, site, flow)?;
    items.extend_from_slice(more.as_slice())?;
    Ok(items)
}

/// What a site does for a flow in a round: at an instant of the table, or at the close that follows.
pub fn cell_items(
    alloc: Global,
    job: &Job,
    grid: &Grid,
    site: u8,
    instant: u32,
    flow: usize,
) -> Result<Vec<Item>, AllocError>
    requires { IsWhole job.now grid.now }
    ensures { IfOk result (λ items. map as_item items.items
        ≡ round_cell (outline job.now (streams_of job.now)) site instant flow) }
{
    if job.instants() <= instant {
        message_items(alloc, job, site, flow)
    } else if is_present(job, grid, flow, instant) {
        flow_items(alloc, job, site, flow, instant)
    } else {
        Ok(Vec::new(alloc))
    }
}

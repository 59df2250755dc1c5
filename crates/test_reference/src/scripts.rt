//! The scripts of the sites.

ghost use Rattle.std.specs.Prelude.{◌≡◌, ◌&&◌, [], IfOk, cond, count_by, map, nat_lt};
ghost use Rattle.luworld.specs.Outline.{cut, full_script, list_length, round, stops};
ghost use Rattle.luworld.specs.Jobs.{outline, script, streams_of};
ghost use Rattle.luworld.specs.Systems.{takes};
ghost use Rattle.luflow.specs.Streams.{is_broken};
ghost use Rattle.test_reference.specs.AsMark.{as_mark};
ghost use Rattle.test_reference.specs.AsItem.{as_item};
ghost use Rattle.test_reference.specs.Filled.{IsWhole};
ghost use Rattle.test_reference.specs.Grids.{held};

use crate::cells::{cell_items, is_present};
use crate::filling::whole;
use crate::grid::Grid;
use crate::item::Item;
use crate::mark::Mark;
use crate::plans::carried;
use luplace::Job;
use std::alloc::{AllocError, Global};

/// What a site does in a round: all flows at an instant, or all closes.
fn round(
    alloc: Global,
    job: &Job,
    grid: &Grid,
    site: u8,
    instant: u32,
) -> Result<Vec<Item>, AllocError>
    requires { IsWhole job.now grid.now }
    ensures { IfOk result (λ items. map as_item items.items
        ≡ round (outline job.now (streams_of job.now)) site instant) }
{
    let mut items = Vec::new(alloc);
    for flow in job.plan().flat().rank() {
        let more = cell_items(alloc, job, grid, site, instant, *flow)?;
        items.extend_from_slice(more.as_slice())?;
    }
    Ok(items)
}

/// A site's script as it were without a fault.
fn full_script(alloc: Global, job: &Job, grid: &Grid, site: u8) -> Result<Vec<Item>, AllocError>
    requires { IsWhole job.now grid.now }
    ensures { IfOk result (λ items. map as_item items.items
        ≡ full_script (outline job.now (streams_of job.now)) site) }
{
    let mut items = Vec::new(alloc);
    let rounds = job.instants() + 1;
    for instant in 0..rounds {
        let more = round(alloc, job, grid, site, instant)?;
        items.extend_from_slice(more.as_slice())?;
    }
    Ok(items)
}

fn is_broken_mark(mark: Mark) -> bool
    ensures { result ≡ is_broken (as_mark mark) }
{
    match mark {
        Mark::Broken => true,
        Mark::Known(_) => false,
    }
}

/// Whether a flow's cell within a table is broken.
fn is_broken_in(grid: &Grid, flows: usize, instants: u32, flow: usize, instant: u32) -> bool
    ensures { result ≡ ((nat_lt flow flows && nat_lt instant instants) && is_broken
        (held grid.now flow instant)) }
{
    (flow < flows && instant < instants) && is_broken_mark(grid.at(flow, instant))
}

/// Whether a fault has reached a flow at an instant of the table.
fn is_broken(job: &Job, grid: &Grid, flow: usize, instant: u32) -> bool
    requires { IsWhole job.now grid.now }
    ensures { result ≡ (outline job.now (streams_of job.now)).broken flow instant }
{
    let flows = job.plan().flat().flows().len();
    is_broken_in(grid, flows, job.instants(), flow, instant)
}

fn one_if(b: bool) -> u32
    ensures { result ≡ cond b 1 0 }
{
    if b { 1 } else { 0 }
}

/// How many messages a link carries.
fn list_length(job: &Job, grid: &Grid, link: usize) -> u32
    requires { IsWhole job.now grid.now }
    ensures { result ≡ list_length (outline job.now (streams_of job.now)) link }
{
    let flow = carried(job.plan(), link);
    let mut count = 0;
    for instant in 0..job.instants() {
        if is_broken(job, grid, flow, instant) {
            return count;
        }
        count += one_if(is_present(job, grid, flow, instant));
    }
    count + 1
}

pub fn is_take(link: usize, item: Item) -> bool
    ensures { result ≡ takes link (as_item item) }
{
    match item {
        Item::Compute { .. } => false,
        Item::Put { .. } => false,
        Item::Take { link: other } => other == link,
    }
}

/// How many of the items take from a link.
fn takes_in(items: &[Item], link: usize) -> usize
    ensures { result ≡ count_by (λ item. takes link (as_item item)) items.now }
{
    items.iter().filter(|item| is_take(link, **item)).count()
}

/// Whether a script stops after an item.
fn is_stop(job: &Job, grid: &Grid, before: &[Item], item: Item) -> bool
    requires { IsWhole job.now grid.now }
    ensures { result ≡ stops (outline job.now (streams_of job.now)) (map as_item before.now)
        (as_item item) }
{
    match item {
        Item::Compute { flow, instant } => is_broken(job, grid, flow, instant),
        Item::Put { .. } => false,
        Item::Take { link } => list_length(job, grid, link) as usize <= takes_in(before, link),
    }
}

/// The items up to the first that stops the script.
fn cut(alloc: Global, job: &Job, grid: &Grid, items: &[Item]) -> Result<Vec<Item>, AllocError>
    requires { IsWhole job.now grid.now }
    ensures { IfOk result (λ kept. map as_item kept.items
        ≡ cut (outline job.now (streams_of job.now)) [] (map as_item items.now)) }
{
    let mut kept = Vec::new(alloc);
    for item in items {
        let stops = is_stop(job, grid, kept.as_slice(), *item);
        kept.push(*item)?;
        if stops {
            return Ok(kept);
        }
    }
    Ok(kept)
}

/// All that a site does in a run, in order: its script, which a fault may cut short. None of it for what is
/// no site.
pub fn script_of(alloc: Global, job: &Job, site: u8) -> Result<Vec<Item>, AllocError>
    ensures { IfOk result (λ items. map as_item items.items
        ≡ script job.now (streams_of job.now) site) }
{
    let grid = whole(alloc, job)?;
    let items = full_script(alloc, job, &grid, site)?;
    cut(alloc, job, &grid, items.as_slice())
}

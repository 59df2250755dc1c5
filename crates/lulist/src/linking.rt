//! The links of a site, and what they say of its flows: which of them links bring, and which are sent.

ghost use Rattle.std.specs.Prelude.{All, IfOk, IfSome};
ghost use Rattle.lulist.specs.Starts.{IsListLink};

use crate::fitting::{is_numbered, number_of};
use crate::flows::OrderedFlows;
use lueval_lines::OrderedLine;
use luplace::Plan;
use luworld::Link;
use std::alloc::{AllocError, Global};

/// A link of a site, and the number of the flow that it carries.
#[derive(Clone, Copy, Drop)]
pub struct ListLink {
    pub link: usize,
    pub row: usize,
}

/// Which links of a site are meant.
#[derive(Clone, Copy, Drop)]
pub enum Direction {
    /// Those that bring flows to it.
    In,
    /// Those by which it sends flows.
    Out,
}

/// Whether this is a link of the site, in that direction.
pub fn is_of(link: Link, site: u8, direction: Direction) -> bool {
    match direction {
        Direction::In => link.to == site,
        Direction::Out => link.from == site,
    }
}

/// A link with the number of its flow; none where that has no number.
fn list_link(plan: &Plan, flows: &OrderedFlows, link: usize) -> Option<ListLink>
    ensures { IfSome result (IsListLink plan.now flows.now.places.items) }
{
    let flow = plan.links().get(link)?.flow;
    if !is_numbered(&flows.places, &flows.numbers, flow) {
        return None;
    }
    Some(ListLink {
        link,
        row: number_of(&flows.numbers, flow),
    })
}

/// The links of a site in that direction, in order of number. None where one carries a flow without a number.
///
/// # Errors
///
/// Out of memory.
pub fn links_of(
    alloc: Global,
    plan: &Plan,
    site: u8,
    flows: &OrderedFlows,
    direction: Direction,
) -> Result<Option<Vec<ListLink>>, AllocError>
    ensures { IfOk result (λ o. IfSome o
        (λ links. All (IsListLink plan.now flows.now.places.items) links.items)) }
{
    let mut links = Vec::new(alloc);
    for l in 0..plan.links().len() {
        if !is_of(plan.links()[l], site, direction) {
            continue;
        }
        let Some(link) = list_link(plan, flows, l) else {
            return Ok(None);
        };
        links.push(link)?;
    }
    Ok(Some(links))
}

/// The receiving ends that bring flows, by number of the flow.
///
/// # Errors
///
/// Out of memory.
pub fn sources_by_row(
    alloc: Global,
    count: usize,
    brought: &[ListLink],
) -> Result<Vec<usize>, AllocError> {
    let mut sources = vec![in alloc; 0; count]?;
    for e in 0..brought.len() {
        let k = brought[e].row;
        if k < sources.len() {
            sources[k] = e;
        }
    }
    Ok(sources)
}

/// The flows that are sent, by number.
fn sent_marks(alloc: Global, count: usize, sent: &[ListLink]) -> Result<Vec<bool>, AllocError> {
    let mut marks = vec![in alloc; false; count]?;
    for e in 0..sent.len() {
        let k = sent[e].row;
        if k < marks.len() {
            marks[k] = true;
        }
    }
    Ok(marks)
}

/// By number of a flow, behind which flow those end that can be worked out at once with it: all between are
/// worked out here, and none but the last is sent.
///
/// # Errors
///
/// Out of memory.
pub fn runs_by_row(
    alloc: Global,
    rows: &[OrderedLine],
    sent: &[ListLink],
) -> Result<Vec<usize>, AllocError> {
    let marks = sent_marks(alloc, rows.len(), sent)?;
    let mut runs = vec![in alloc; 0; rows.len()]?;
    let mut run = rows.len();
    for n in 0..rows.len() {
        let k = rows.len() - 1 - n;
        let own = rows[k].own;
        if !own || marks.get(k).copied().unwrap_or(true) {
            run = k + 1;
        }
        if k < runs.len() {
            runs[k] = run;
        }
        if !own {
            run = k;
        }
    }
    Ok(runs)
}

/// The sending ends in order of their flows.
///
/// # Errors
///
/// Out of memory.
pub fn queue_of(alloc: Global, sent: &[ListLink]) -> Result<Vec<usize>, AllocError> {
    let mut queue = Vec::with_capacity(alloc, sent.len())?;
    for e in 0..sent.len() {
        queue.push(e)?;
    }
    let key = |e: &usize| match sent.get(*e) {
        Some(link) => link.row,
        None => 0,
    };
    queue.as_mut_slice().sort_by_cached_key(alloc, key)?;
    Ok(queue)
}

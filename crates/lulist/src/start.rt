//! What a site has before its first instant.

ghost use Rattle.std.specs.Prelude.{◌≡◌, ◌≤◌, ℕ, List, [], length, All, IfOk, IfSome, Some, slice_get, vec_capacity};
ghost use Rattle.luworld.specs.Jobs.{JobView};
ghost use Rattle.lulink.specs.Views.{IsUnusedReceiver, IsUnusedSender};
ghost use Rattle.lusite_program.specs.Logs.{Log};
ghost use Rattle.lulist.specs.Starts.{IsFirstOutlet, IsFirstSource, IsListLink};

use crate::ends::{Outlet, Source};
use crate::linking::ListLink;
use luflow::Status;
use lulink::{Rx, Tx};
use std::alloc::{AllocError, Global};

/// The receiving end of a link before the first instant. None where it is another link's.
fn source_of(link: ListLink, rx: Rx) -> Option<Source>
    ensures { IfSome result (λ source. (job : JobView) (places : List ℕ) → IsUnusedReceiver job rx
        → IsListLink job.plan places link → IsFirstSource job places source) }
{
    if rx.link() != link.link {
        return None;
    }
    Some(Source {
        rx,
        row: link.row,
        done: 0,
        closed: false,
    })
}

/// The receiving ends of these links before the first instant. None where they aren't those, in the same
/// order.
///
/// # Errors
///
/// Out of memory.
pub fn sources_of(
    alloc: Global,
    links: &[ListLink],
    rxs: Vec<Rx>,
) -> Result<Option<Vec<Source>>, AllocError>
    ensures { IfOk result (λ o. IfSome o (λ sources. (job : JobView) (places : List ℕ)
        → All (IsUnusedReceiver job) rxs.items → All (IsListLink job.plan places) links.now
        → All (IsFirstSource job places) sources.items)) }
{
    if rxs.len() != links.len() {
        return Ok(None);
    }
    let mut sources = Vec::with_capacity(alloc, rxs.len())?;
    for rx in rxs {
        let Some(link) = links.get(sources.len()) else {
            return Ok(None);
        };
        let Some(source) = source_of(*link, rx) else {
            return Ok(None);
        };
        sources.push(source)?;
    }
    Ok(Some(sources))
}

/// The sending end of a link before the first instant. None where it is another link's.
fn outlet_of(link: ListLink, tx: Tx) -> Option<Outlet>
    ensures { IfSome result (λ outlet. (job : JobView) (places : List ℕ) → IsUnusedSender job tx
        → IsListLink job.plan places link → IsFirstOutlet job places outlet) }
{
    if tx.link() != link.link {
        return None;
    }
    Some(Outlet {
        tx,
        row: link.row,
        done: 0,
        number: 0,
        closed: false,
    })
}

/// The sending ends of these links before the first instant. None where they aren't those, in the same order.
///
/// # Errors
///
/// Out of memory.
pub fn outlets_of(
    alloc: Global,
    links: &[ListLink],
    txs: Vec<Tx>,
) -> Result<Option<Vec<Outlet>>, AllocError>
    ensures { IfOk result (λ o. IfSome o (λ outlets. (job : JobView) (places : List ℕ)
        → All (IsUnusedSender job) txs.items → All (IsListLink job.plan places) links.now
        → All (IsFirstOutlet job places) outlets.items)) }
{
    if txs.len() != links.len() {
        return Ok(None);
    }
    let mut outlets = Vec::with_capacity(alloc, txs.len())?;
    for tx in txs {
        let Some(link) = links.get(outlets.len()) else {
            return Ok(None);
        };
        let Some(outlet) = outlet_of(*link, tx) else {
            return Ok(None);
        };
        outlets.push(outlet)?;
    }
    Ok(Some(outlets))
}

/// Empty logs with room for all instants.
///
/// # Errors
///
/// Out of memory.
pub fn logs_of(alloc: Global, count: usize, instants: u32) -> Result<Vec<Vec<Status>>, AllocError>
    ensures len { IfOk result (λ logs. length logs.items ≡ count) }
    ensures each { IfOk result (λ logs. (n : ℕ) (row : Log) → slice_get logs.items n ≡ Some row
        → (row.items ≡ []) × (instants ≤ vec_capacity row)) }
{
    let mut logs = Vec::with_capacity(alloc, count)?;
    for _n in 0..count {
        let row = Vec::with_capacity(alloc, instants as usize)?;
        logs.push_reserved(row);
    }
    Ok(logs)
}

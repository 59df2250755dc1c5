//! The ends of a site's links before the first block.

ghost use Rattle.std.specs.Prelude.{◌≡◌, IfOk, IfSome, slice_get};
ghost use Rattle.lublock_site.specs.Starts.{AreFirstOutlets, AreFirstSources, IsFirstOutlet, IsFirstSource};

use crate::code_links::SiteLink;
use crate::outlets::Outlet;
use crate::sources::Source;
use lulink::{Rx, Tx};
use std::alloc::{AllocError, Global};

/// A receiving end as it stands before the first block, if it is one of this link.
fn source_of(link: SiteLink, rx: Rx) -> Option<Source>
    ensures { IfSome result (IsFirstSource link rx) }
{
    if rx.link() != link.link {
        return None;
    }
    Some(Source {
        rx,
        flow: link.flow,
        got: 0,
        closed: false,
    })
}

fn link_at(links: &[SiteLink], k: usize) -> Option<SiteLink>
    ensures { result ≡ slice_get links.now k }
{
    links.get(k).copied()
}

/// The receiving ends of these links, in their order, as they stand before the first block. None where the
/// ends aren't those.
///
/// # Errors
///
/// Out of memory.
pub fn sources_of(
    alloc: Global,
    links: &[SiteLink],
    rxs: Vec<Rx>,
) -> Result<Option<Vec<Source>>, AllocError>
    ensures { IfOk result (λ o. IfSome o (λ sources. AreFirstSources links.now rxs.items sources.items)) }
{
    if rxs.len() != links.len() {
        return Ok(None);
    }
    let mut sources = Vec::with_capacity(alloc, links.len())?;
    for rx in rxs {
        let Some(link) = link_at(links, sources.len()) else {
            return Ok(None);
        };
        let Some(source) = source_of(link, rx) else {
            return Ok(None);
        };
        sources.push(source)?;
    }
    Ok(Some(sources))
}

/// A sending end as it stands before the first block, if it is one of this link.
fn outlet_of(link: SiteLink, tx: Tx) -> Option<Outlet>
    ensures { IfSome result (IsFirstOutlet link tx) }
{
    if tx.link() != link.link {
        return None;
    }
    Some(Outlet {
        tx,
        flow: link.flow,
        sent: 0,
        number: 0,
        closed: false,
    })
}

/// The sending ends of these links, in their order, as they stand before the first block. None where the ends
/// aren't those.
///
/// # Errors
///
/// Out of memory.
pub fn outlets_of(
    alloc: Global,
    links: &[SiteLink],
    txs: Vec<Tx>,
) -> Result<Option<Vec<Outlet>>, AllocError>
    ensures { IfOk result (λ o. IfSome o (λ outlets. AreFirstOutlets links.now txs.items outlets.items)) }
{
    if txs.len() != links.len() {
        return Ok(None);
    }
    let mut outlets = Vec::with_capacity(alloc, links.len())?;
    for tx in txs {
        let Some(link) = link_at(links, outlets.len()) else {
            return Ok(None);
        };
        let Some(outlet) = outlet_of(link, tx) else {
            return Ok(None);
        };
        outlets.push(outlet)?;
    }
    Ok(Some(outlets))
}

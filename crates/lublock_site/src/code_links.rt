//! The links of a site, and the flows that they carry.

ghost use Rattle.std.specs.Prelude.{◌≡◌, All, IfOk, IfSome};
ghost use Rattle.lublock_site.specs.Codes.{AreNeverNil, IsMarkedLink, IsSentLink};

use crate::parts::is_marked;
use luplace::{Plan, class_in, least_nils};
use std::alloc::{AllocError, Global};

/// A link by its number, and the flow that it carries.
#[derive(Clone, Copy, Drop)]
pub struct SiteLink {
    pub link: usize,
    pub flow: usize,
}

/// The link of this number, if its flow is one of the program's and marked.
fn marked_link(plan: &Plan, marks: &[bool], l: usize) -> Option<SiteLink>
    ensures { IfSome result (IsMarkedLink plan.now marks.now) }
{
    match plan.links().get(l) {
        Some(link) if link.flow < plan.flat().flows().len() && is_marked(marks, link.flow) => {
            Some(SiteLink {
                link: l,
                flow: link.flow,
            })
        }
        _ => None,
    }
}

/// The links into a site, in order of number. None where the flow of one isn't marked as taken.
///
/// # Errors
///
/// Out of memory.
pub fn links_into(
    alloc: Global,
    plan: &Plan,
    site: u8,
    taken: &[bool],
) -> Result<Option<Vec<SiteLink>>, AllocError>
    ensures { IfOk result (λ o. IfSome o (λ links. All (IsMarkedLink plan.now taken.now) links.items)) }
{
    let mut links = Vec::new(alloc);
    for l in 0..plan.links().len() {
        if plan.links()[l].to == site {
            let Some(link) = marked_link(plan, taken, l) else {
                return Ok(None);
            };
            links.push(link)?;
        }
    }
    Ok(Some(links))
}

/// The link of this number, if its flow is an own one and never nil by these classes.
fn sent_link(plan: &Plan, nils: &[bool], own: &[bool], l: usize) -> Option<SiteLink>
    requires { AreNeverNil plan.now.flat nils.now }
    ensures { IfSome result (IsSentLink plan.now own.now) }
{
    let link = marked_link(plan, own, l)?;
    if class_in(nils, link.flow) {
        return None;
    }
    Some(link)
}

/// The links out of a site, in order of number, where flows are never nil by these classes.
fn links_by(
    alloc: Global,
    plan: &Plan,
    site: u8,
    nils: &[bool],
    own: &[bool],
) -> Result<Option<Vec<SiteLink>>, AllocError>
    requires { AreNeverNil plan.now.flat nils.now }
    ensures { IfOk result (λ o. IfSome o (λ links. All (IsSentLink plan.now own.now) links.items)) }
{
    let mut links = Vec::new(alloc);
    for l in 0..plan.links().len() {
        if plan.links()[l].from == site {
            let Some(link) = sent_link(plan, nils, own, l) else {
                return Ok(None);
            };
            links.push(link)?;
        }
    }
    Ok(Some(links))
}

/// The links out of a site, in order of number. None where the flow of one isn't computed there, or may be
/// nil.
///
/// # Errors
///
/// Out of memory.
pub fn links_out(
    alloc: Global,
    plan: &Plan,
    site: u8,
    own: &[bool],
) -> Result<Option<Vec<SiteLink>>, AllocError>
    ensures { IfOk result (λ o. IfSome o (λ links. All (IsSentLink plan.now own.now) links.items)) }
{
    let flat = plan.flat();
    flat.recall_invariant();
    let nils = least_nils(alloc, flat)?;
    links_by(alloc, plan, site, &nils, own)
}

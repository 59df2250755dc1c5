//! One site's part of a plan, for blocks of instants: what is worked out before there are inputs.

ghost use Rattle.std.specs.Prelude.{◌≡◌, ◌<◌, IfOk, IfSome};
ghost use Rattle.luworld.specs.Needs.{sites_of};
ghost use Rattle.lublock_site.specs.Codes.{AreCodeParts};

use crate::code_links::{SiteLink, links_into, links_out};
use crate::code_marks::{Marks, marks_of, needs_of, outputs_at};
use lublock_plan::{SitePlan, site_plan};
use luflow::Flat;
use luplace::Plan;
use std::alloc::{AllocError, Global};
use std::marker::Model;
use std::snapshot::Snapshot;
use std::sync::Arc;

/// The most instants of a block.
const INSTANTS: usize = 256;

/// The most messages of a link that are put or taken at once.
const RUN: usize = 64;

/// What of a site's code stays in a run: the program, which flows are computed and which are taken, and the
/// order of the steps.
#[derive(Drop)]
pub struct SiteCode {
    pub flat: Arc<Flat>,
    pub marks: Marks,
    pub order: SitePlan,
    /// The variables whose statuses are kept.
    pub needs: Vec<usize>,
    /// The most instants of a block.
    pub block: usize,
}

/// What is worked out of a site's part of a plan.
#[derive(Drop)]
pub struct CodeParts {
    pub code: SiteCode,
    /// The links into the site, and those out of it, in order of number.
    pub into: Vec<SiteLink>,
    pub out: Vec<SiteLink>,
    /// For each output of the main node its variable where the site is its home.
    pub outputs: Vec<Option<usize>>,
    /// The most messages that are put or taken at once.
    pub run: usize,
}

/// One site's part of a plan, for blocks of instants, made from the plan alone. A contract sees the plan and
/// the site.
pub struct RowCode {
    plan: Snapshot<Plan>,
    site: u8,
    parts: CodeParts,
}

// By hand, so that it is proved here alone, and not in each crate that owns one.
impl Drop for RowCode {
    fn drop(self) {
        let Self {
            plan: _,
            site: _,
            parts: _,
        } = self;
    }
}

impl Model for RowCode {
    ghost use Rattle.luworld.specs.Sites.{SiteOfPlan};
    ghost use Rattle.lublock_site.specs.Codes.{AreCodeParts};

    ghost Value = { SiteOfPlan };

    ghost view = { λ a. record { plan = a.plan.value; site = a.site } };

    ghost invariant = { λ a. AreCodeParts a.plan.value a.site a.parts };
}

fn flows_of(alloc: Global, links: &[SiteLink]) -> Result<Vec<usize>, AllocError> {
    let mut flows = Vec::with_capacity(alloc, links.len())?;
    for link in links {
        flows.push(link.flow)?;
    }
    Ok(flows)
}

/// The order of a site's steps in blocks of so many instants.
fn order_of(
    alloc: Global,
    flat: &Flat,
    marks: &Marks,
    into: &[SiteLink],
    out: &[SiteLink],
    block: usize,
) -> Result<Option<SitePlan>, AllocError> {
    let brought = flows_of(alloc, into)?;
    let sent = flows_of(alloc, out)?;
    site_plan(
        alloc,
        flat,
        marks.own.as_slice(),
        marks.taken.as_slice(),
        brought.as_slice(),
        sent.as_slice(),
        block,
    )
}

/// What is worked out of a site's part of a plan, for runs of at most so many instants. None where the site
/// doesn't work in blocks: a flow that it sends may be nil, what it computes and takes isn't a part of the
/// program, or no order of its steps was found.
fn parts_of(
    alloc: Global,
    plan: &Plan,
    site: u8,
    instants: usize,
) -> Result<Option<CodeParts>, AllocError>
    requires { site < sites_of plan.now }
    ensures { IfOk result (λ o. IfSome o (AreCodeParts plan.now site)) }
{
    let Some(marks) = marks_of(alloc, plan, site)? else {
        return Ok(None);
    };
    let Some(into) = links_into(alloc, plan, site, marks.taken.as_slice())? else {
        return Ok(None);
    };
    let Some(out) = links_out(alloc, plan, site, marks.own.as_slice())? else {
        return Ok(None);
    };
    let outputs = outputs_at(alloc, plan, site)?;
    let flat = plan.shared_flat()?;
    let Some(needs) = needs_of(alloc, &flat, &marks, outputs.as_slice())? else {
        return Ok(None);
    };
    let block = instants.clamp(1, INSTANTS);
    let Some(order) = order_of(alloc, &flat, &marks, into.as_slice(), out.as_slice(), block)? else {
        return Ok(None);
    };
    let code = SiteCode {
        flat,
        marks,
        order,
        needs,
        block,
    };
    Ok(Some(CodeParts {
        code,
        into,
        out,
        outputs,
        run: usize::from(plan.capacity()).min(RUN),
    }))
}

impl RowCode {
    /// A site's part of a plan, with room for runs of at most so many instants. None where the site can't be
    /// run by blocks: a flow that it sends may be nil, or a cycle is parted over sites.
    ///
    /// # Errors
    ///
    /// An error means that memory ran out.
    pub fn new(
        alloc: Global,
        plan: &Plan,
        site: u8,
        instants: usize,
    ) -> Result<Option<RowCode>, AllocError>
        requires { site < sites_of plan.now }
        ensures { IfOk result (λ o. IfSome o (λ x. x ≡ record { plan = plan.now; site = site })) }
    {
        match parts_of(alloc, plan, site, instants)? {
            Some(parts) => Ok(Some(RowCode {
                plan: Snapshot::of(plan),
                site,
                parts,
            })),
            None => Ok(None),
        }
    }

    /// What is worked out of the site's part of the plan.
    pub(crate) fn into_parts(self) -> CodeParts
        ensures { AreCodeParts self.plan self.site result }
    {
        let RowCode {
            plan: _,
            site: _,
            parts,
        } = self;
        parts
    }
}

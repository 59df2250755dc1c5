//! One site's part of a plan, made from the plan alone.

ghost use Rattle.std.specs.Prelude.{◌≡◌, ◌<◌, All, IfOk, IfSome};
ghost use Rattle.luworld.specs.Needs.{sites_of};
ghost use Rattle.lulink.specs.Views.{IsUnusedReceiver, IsUnusedSender};
ghost use Rattle.lulist.specs.Lists.{IsListing};

use crate::flows::OrderedFlows;
use crate::linking::{Direction, ListLink, is_of, links_of, queue_of, runs_by_row, sources_by_row};
use crate::making::ordered_flows;
use crate::order::list_order;
use crate::outputs::noted_of;
use crate::site::ListSite;
use crate::start::{logs_of, outlets_of, sources_of};
use lueval_lines::Cell;
use lulink::{Rx, Tx};
use luplace::{Plan, SiteInputs};
use std::alloc::{AllocError, Global};
use std::marker::Model;
use std::snapshot::Snapshot;

/// One site's part of a plan, gone through once an instant: its flows in order with their lines, its links,
/// and which flows it reports. A contract sees the plan and the site.
pub struct ListCode {
    plan: Snapshot<Plan>,
    site: u8,
    flows: OrderedFlows,
    /// The links that bring flows to the site, in order of number: the receiving ends.
    brought: Vec<ListLink>,
    /// The links by which it sends flows, in order of number: the sending ends.
    sent: Vec<ListLink>,
    /// The numbers of the flows that it reports.
    noted: Vec<usize>,
    /// The sending ends in order of their flows.
    queue: Vec<usize>,
    /// By number of a flow, the receiving end that brings it, and behind which flow those end that can be
    /// worked out at once with it.
    row_sources: Vec<usize>,
    row_runs: Vec<usize>,
}

// By hand, so that it is proved here alone, and not in each crate that owns one.
impl Drop for ListCode {
    fn drop(self) {
        let Self {
            plan: _,
            site: _,
            flows: _,
            brought: _,
            sent: _,
            noted: _,
            queue: _,
            row_sources: _,
            row_runs: _,
        } = self;
    }
}

impl Model for ListCode {
    ghost use Rattle.luworld.specs.Sites.{SiteOfPlan};
    ghost use Rattle.lulist.specs.Codes.{IsListCode};

    ghost Value = { SiteOfPlan };

    ghost view = { λ a. record { plan = a.plan.value; site = a.site } };

    ghost invariant = { IsListCode };
}

/// The flows that stand at a site, by place.
fn own_marks(alloc: Global, plan: &Plan, site: u8) -> Result<Vec<bool>, AllocError> {
    let count = plan.flat().flows().len();
    let mut marks = Vec::with_capacity(alloc, count)?;
    for i in 0..count {
        marks.push(plan.stands(i, site))?;
    }
    Ok(marks)
}

/// The flows that links bring to a site, by place.
fn taken_marks(alloc: Global, plan: &Plan, site: u8) -> Result<Vec<bool>, AllocError> {
    let mut marks = vec![in alloc; false; plan.flat().flows().len()]?;
    for link in plan.links() {
        if is_of(*link, site, Direction::In) && link.flow < marks.len() {
            marks[link.flow] = true;
        }
    }
    Ok(marks)
}

impl ListCode {
    /// A site's part of a plan. None where the site has no order in which what a flow reads at its own
    /// instant comes before it.
    ///
    /// # Errors
    ///
    /// An error means that memory ran out.
    pub fn new(alloc: Global, plan: &Plan, site: u8) -> Result<Option<ListCode>, AllocError>
        requires { site < sites_of plan.now }
        ensures { IfOk result (λ o. IfSome o (λ x. x ≡ record { plan = plan.now; site = site })) }
    {
        let own = own_marks(alloc, plan, site)?;
        let taken = taken_marks(alloc, plan, site)?;
        let places = list_order(alloc, plan.flat(), &own, &taken)?;
        let Some(flows) = ordered_flows(alloc, plan, site, places)? else {
            return Ok(None);
        };
        let Some(brought) = links_of(alloc, plan, site, &flows, Direction::In)? else {
            return Ok(None);
        };
        let Some(sent) = links_of(alloc, plan, site, &flows, Direction::Out)? else {
            return Ok(None);
        };
        let noted = noted_of(alloc, &flows.reported)?;
        let queue = queue_of(alloc, &sent)?;
        let row_sources = sources_by_row(alloc, flows.places.len(), &brought)?;
        let row_runs = runs_by_row(alloc, &flows.lines.rows, &sent)?;
        Ok(Some(ListCode {
            plan: Snapshot::of(plan),
            site,
            flows,
            brought,
            sent,
            noted,
            queue,
            row_sources,
            row_runs,
        }))
    }

    /// The site before its first instant, from the unused ends of its links. None where these aren't the ends
    /// that the site's part of the plan names, in the same order.
    ///
    /// # Errors
    ///
    /// Out of memory. The ends have left then, and where there is none.
    pub(crate) fn start(
        self,
        alloc: Global,
        inputs: SiteInputs,
        txs: Vec<Tx>,
        rxs: Vec<Rx>,
    ) -> Result<Option<ListSite>, AllocError>
        requires plan { self.plan ≡ inputs.job.plan }
        requires site { self.site ≡ inputs.site }
        requires senders { All (IsUnusedSender inputs.job) txs.items }
        requires receivers { All (IsUnusedReceiver inputs.job) rxs.items }
        ensures going { IfOk result (λ o. IfSome o IsListing) }
        ensures same { IfOk result (λ o. IfSome o (λ x. x.inputs ≡ inputs)) }
    {
        let ListCode {
            plan: _,
            site: _,
            flows,
            brought,
            sent,
            noted,
            queue,
            row_sources,
            row_runs,
        } = self;
        let Some(sources) = sources_of(alloc, &brought, rxs)? else {
            return Ok(None);
        };
        let Some(outlets) = outlets_of(alloc, &sent, txs)? else {
            return Ok(None);
        };
        let count = flows.places.len();
        let shown = vec![in alloc; Cell::Absent; count]?;
        let lasts = vec![in alloc; Cell::Absent; count]?;
        let logs = logs_of(alloc, noted.len(), inputs.instants())?;
        inputs.recall_invariant();
        Ok(Some(ListSite {
            inputs,
            flows,
            shown,
            lasts,
            sources,
            outlets,
            noted,
            logs,
            queue,
            row_sources,
            row_runs,
            t: 0,
            at: 0,
            out: 0,
        }))
    }
}

//! What of a plan a site runs.

ghost use Rattle.std.specs.Prelude.{◌≡◌, ℕ, ◌+◌, ◌<◌, length, slice_get, slice_index, unwrap_or, List, Option};
ghost use Rattle.luworld.specs.Needs.{IsPlan, sites_of};
ghost use Rattle.luworld.specs.Jobs.{outputs_of};
ghost use Rattle.lusite_program.specs.Programs.{output_names, places_of, rank_at, AreSiteFlows, Reports};

use lubase::{Name, Row};
use lueval_lines::Line;
use luplace::Plan;
use std::marker::Model;
use std::snapshot::Snapshot;

/// The number of a link, from 0.
pub type LinkNo = usize;

/// A site's part in one flow.
#[derive(Drop)]
pub struct Part {
    /// Whether the site computes the flow.
    pub own: bool,
    /// Whether the site reports the flow, as an output.
    pub reported: bool,
    /// The link by which the site takes the flow.
    pub from: Option<LinkNo>,
    /// The links by which the site sends the flow, in order.
    pub to: Row<LinkNo>,
}

/// A flow that a site computes or takes, as the site's machine has it.
#[derive(Clone, Copy, Drop)]
pub struct SiteFlow {
    /// The flow, with its number among these flows in order of rank in place of its place; so are its
    /// operands and its clock's variable.
    pub line: Line,
    /// The number of the main variable in whose equation the flow stands.
    pub owner: usize,
    /// Whether the site computes the flow.
    pub own: bool,
    /// Whether the site reports the flow, as an output.
    pub reported: bool,
    /// The link by which the site takes the flow.
    pub from: Option<LinkNo>,
    /// Where the links by which the site sends the flow begin in the list of all of these.
    pub first: u32,
    /// By how many links the site sends the flow.
    pub outs: u32,
    /// True only where the flow before it in order of rank has the same clock.
    pub same: bool,
}

/// What of a plan a site runs: the flows that it computes or takes, in order of rank, and its part in each.
/// It keeps, for contracts alone, which plan it is of.
pub struct SiteProgram {
    pub(crate) site: u8,
    /// How many flows the whole program has.
    pub(crate) end: usize,
    /// The ranks of the flows that the site computes or takes, in order.
    pub(crate) ranks: Row<usize>,
    /// The places of these flows, in order of rank.
    pub(crate) places: Row<usize>,
    /// These flows, in order of rank.
    pub(crate) site_flows: Row<SiteFlow>,
    /// The numbers of the branches of the merges among them.
    pub(crate) branches: Row<u16>,
    /// The links by which the site sends flows, those of one flow side by side.
    pub(crate) links: Row<LinkNo>,
    /// For each main output the number of its flow, where the site reports it.
    pub(crate) reported: Row<Option<usize>>,
    pub(crate) sites: u8,
    pub(crate) names: Row<Name>,
    pub(crate) plan: Snapshot<Plan>,
}

// By hand, so that it is proved here alone, and not in each crate that owns one.
impl Drop for SiteProgram {
    fn drop(self) {
        let Self {
            site: _,
            end: _,
            ranks: _,
            places: _,
            site_flows: _,
            branches: _,
            links: _,
            reported: _,
            sites: _,
            names: _,
            plan: _,
        } = self;
    }
}

impl Model for SiteProgram {
    ghost use Rattle.lusite_program.specs.Programs.{SiteProgramView, IsProgram};

    ghost Value = { SiteProgramView };

    ghost view = { λ a. record { plan = a.plan.value; site = a.site } };

    ghost invariant = { λ a. IsProgram a.plan.value a.site a.end a.ranks a.places a.branches a.links
        a.site_flows a.reported a.sites a.names };
}

/// Link number j of those by which the site sends a flow, among those of all its flows.
#[inline(always)]
pub fn link_of(site_flow: &SiteFlow, links: &[LinkNo], j: usize) -> LinkNo
    ensures { (to : List ℕ) → site_flow.now.outs ≡ length to
        → ((i : ℕ) → i < site_flow.now.outs → slice_index links.now (site_flow.now.first + i)
        ≡ slice_index to i) → result ≡ slice_index to j }
{
    if j >= site_flow.outs as usize {
        return 0;
    }
    match links.get(site_flow.first as usize + j) {
        Some(link) => *link,
        None => 0,
    }
}

/// The number that is reported of output k, if one is.
fn number_of(reported: &[Option<usize>], k: usize) -> Option<usize>
    ensures { result ≡ unwrap_or (slice_get reported.now k) Option.None }
{
    match reported.get(k) {
        Some(number) => *number,
        None => None,
    }
}

impl SiteProgram {
    /// The places of the flows that the site computes or takes, in order of rank.
    pub fn places(&self) -> &[usize]
        ensures { result.now ≡ places_of self.now.plan self.now.site }
    {
        self.places.as_slice()
    }

    /// The flows that the site computes or takes, in order of rank, as its machine has them, the numbers of
    /// the branches of the merges among them, and the links by which the site sends them.
    #[inline(always)]
    pub fn code(&self) -> (&[SiteFlow], &[u16], &[LinkNo])
        ensures { AreSiteFlows self.now.plan self.now.site result.1.now result.2.now result.0.now }
    {
        (
            self.site_flows.as_slice(),
            self.branches.as_slice(),
            self.links.as_slice(),
        )
    }

    /// The rank of flow number k of those that the site computes or takes; behind the last the number of all
    /// flows.
    pub fn rank(&self, k: usize) -> usize
        ensures { result ≡ rank_at self.now k }
    {
        match self.ranks.as_slice().get(k) {
            Some(rank) => *rank,
            None => self.end,
        }
    }

    /// How many main outputs there are.
    pub fn outputs(&self) -> usize
        ensures count { result ≡ length (outputs_of self.now.plan) }
        ensures plan { IsPlan self.now.plan }
    {
        self.reported.as_slice().len()
    }

    /// The number, among the flows that the site computes or takes, of that which is output k, where the site
    /// reports it.
    pub fn reported_flow(&self, k: usize) -> Option<usize>
        ensures there { (i : ℕ) → slice_get (outputs_of self.now.plan) k ≡ Option.Some i
            → Reports self.now.plan self.now.site i result }
        ensures beyond { slice_get (outputs_of self.now.plan) k ≡ Option.None
            → result ≡ Option.None }
    {
        number_of(self.reported.as_slice(), k)
    }

    /// The number of sites of the plan, 1 to 16.
    pub fn sites(&self) -> u8
        ensures { result ≡ sites_of self.now.plan }
    {
        self.sites
    }

    /// The names of the main outputs, in order of declaration.
    pub fn names(&self) -> &[Name]
        ensures { result.now ≡ output_names self.now.plan }
    {
        self.names.as_slice()
    }
}

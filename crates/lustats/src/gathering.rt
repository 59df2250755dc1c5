//! Gathering what the ends of links say.

ghost use Rattle.std.specs.Prelude.{◌≡◌, length, vec_len, IfOk};
ghost use Rattle.luworld.specs.Needs.{sites_of};

use crate::counts::{Counts, LinkCounts, SiteCounts};
use lulink::{End, EndTally, Tally};
use luplace::Plan;
use std::alloc::{AllocError, Global};
use std::marker::Model;
use std::sync::atomic::{AtomicU64, Ordering};

/// The sums of one site.
#[derive(Drop)]
struct SiteCell {
    put: AtomicU64,
    waited_full: AtomicU64,
    taken: AtomicU64,
    waited_empty: AtomicU64,
}

impl SiteCell {
    fn new() -> SiteCell {
        SiteCell {
            put: AtomicU64::new(0),
            waited_full: AtomicU64::new(0),
            taken: AtomicU64::new(0),
            waited_empty: AtomicU64::new(0),
        }
    }

    /// Adds what a sending end counted.
    fn add_sender(&self, tally: Tally) {
        self.put.fetch_add(tally.passed, Ordering::Relaxed);
        self.waited_full.fetch_add(tally.waited, Ordering::Relaxed);
    }

    /// Adds what a receiving end counted.
    fn add_receiver(&self, tally: Tally) {
        self.taken.fetch_add(tally.passed, Ordering::Relaxed);
        self.waited_empty.fetch_add(tally.waited, Ordering::Relaxed);
    }

    fn clear(&self) {
        self.put.store(0, Ordering::Relaxed);
        self.waited_full.store(0, Ordering::Relaxed);
        self.taken.store(0, Ordering::Relaxed);
        self.waited_empty.store(0, Ordering::Relaxed);
    }

    fn counts(&self) -> SiteCounts {
        SiteCounts {
            put: self.put.load(Ordering::Relaxed),
            waited_full: self.waited_full.load(Ordering::Relaxed),
            taken: self.taken.load(Ordering::Relaxed),
            waited_empty: self.waited_empty.load(Ordering::Relaxed),
        }
    }
}

/// What the ends of one link said.
#[derive(Drop)]
struct LinkCell {
    passed: AtomicU64,
    most_sent: AtomicU64,
    most_taken: AtomicU64,
}

impl LinkCell {
    fn new() -> LinkCell {
        LinkCell {
            passed: AtomicU64::new(0),
            most_sent: AtomicU64::new(0),
            most_taken: AtomicU64::new(0),
        }
    }

    fn clear(&self) {
        self.passed.store(0, Ordering::Relaxed);
        self.most_sent.store(0, Ordering::Relaxed);
        self.most_taken.store(0, Ordering::Relaxed);
    }

    fn counts(&self) -> LinkCounts {
        let sent = self.most_sent.load(Ordering::Relaxed);
        let taken = self.most_taken.load(Ordering::Relaxed);
        LinkCounts {
            passed: self.passed.load(Ordering::Relaxed),
            most: sent.max(taken),
        }
    }
}

/// What the ends of a run's links said, which many threads may note at once. A contract sees for how many
/// sites and links it has room. A thread's notes are seen once it was joined.
#[derive(Drop)]
pub struct RunStats {
    sites: Vec<SiteCell>,
    links: Vec<LinkCell>,
}

impl Model for RunStats {
    ghost use Rattle.std.specs.Prelude.{length};
    ghost use Rattle.lustats.specs.Sizes.{Sizes};

    ghost Value = { Sizes };

    ghost view = { λ a. record { sites = length a.sites.items; links = length a.links.items } };
}

fn site_cells(alloc: Global, count: usize) -> Result<Vec<SiteCell>, AllocError>
    ensures { IfOk result (λ cells. vec_len cells ≡ count) }
{
    let mut cells = Vec::with_capacity(alloc, count)?;
    for _ in 0..count {
        cells.push_reserved(SiteCell::new());
    }
    Ok(cells)
}

fn link_cells(alloc: Global, count: usize) -> Result<Vec<LinkCell>, AllocError>
    ensures { IfOk result (λ cells. vec_len cells ≡ count) }
{
    let mut cells = Vec::with_capacity(alloc, count)?;
    for _ in 0..count {
        cells.push_reserved(LinkCell::new());
    }
    Ok(cells)
}

fn site_counts_of(alloc: Global, cells: &[SiteCell]) -> Result<Vec<SiteCounts>, AllocError>
    ensures { IfOk result (λ counts. vec_len counts ≡ length cells.now) }
{
    let mut counts = Vec::with_capacity(alloc, cells.len())?;
    for cell in cells {
        counts.push_reserved(cell.counts());
    }
    Ok(counts)
}

fn link_counts_of(alloc: Global, cells: &[LinkCell]) -> Result<Vec<LinkCounts>, AllocError>
    ensures { IfOk result (λ counts. vec_len counts ≡ length cells.now) }
{
    let mut counts = Vec::with_capacity(alloc, cells.len())?;
    for cell in cells {
        counts.push_reserved(cell.counts());
    }
    Ok(counts)
}

impl RunStats {
    /// Room for what a run of this plan counts; nothing is counted yet. All memory for the run is taken here.
    ///
    /// # Errors
    ///
    /// An error means that memory ran out.
    pub fn new(alloc: Global, plan: &Plan) -> Result<RunStats, AllocError>
        ensures sites { IfOk result (λ stats. stats.sites ≡ sites_of plan.now) }
        ensures links { IfOk result (λ stats. stats.links ≡ length plan.now.links) }
    {
        let sites = site_cells(alloc, plan.sites().len())?;
        let links = link_cells(alloc, plan.links().len())?;
        Ok(RunStats { sites, links })
    }

    /// Notes what an end of a link of this site said: once for each end of a run. A site or a link that the
    /// plan hasn't is passed over. Takes no memory.
    pub fn note(&self, site: u8, end: EndTally) {
        let tally = end.tally;
        if let Some(cell) = self.sites.get(usize::from(site)) {
            match end.end {
                End::Sender => cell.add_sender(tally),
                End::Receiver => cell.add_receiver(tally),
            }
        }
        if let Some(cell) = self.links.get(end.link) {
            match end.end {
                End::Sender => {
                    cell.passed.store(tally.passed, Ordering::Relaxed);
                    cell.most_sent.store(tally.most, Ordering::Relaxed);
                }
                End::Receiver => cell.most_taken.store(tally.most, Ordering::Relaxed),
            }
        }
    }

    /// Forgets all that was noted, as before a run that goes again from new stations. Takes no memory.
    pub fn clear(&self) {
        for cell in &self.sites {
            cell.clear();
        }
        for cell in &self.links {
            cell.clear();
        }
    }

    /// What was noted so far, for each site and each link.
    ///
    /// # Errors
    ///
    /// An error means that memory ran out.
    pub fn counts(&self, alloc: Global) -> Result<Counts, AllocError>
        ensures sites { IfOk result (λ counts. vec_len counts.sites ≡ self.now.sites) }
        ensures links { IfOk result (λ counts. vec_len counts.links ≡ self.now.links) }
    {
        Ok(Counts {
            sites: site_counts_of(alloc, self.sites.as_slice())?,
            links: link_counts_of(alloc, self.links.as_slice())?,
        })
    }
}

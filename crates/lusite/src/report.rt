//! What a site leaves.

ghost use Rattle.std.specs.Prelude.{◌≡◌, ℕ, ◌<◌, true, IfOk, length, map, slice_get};
ghost use Rattle.lusite.specs.Logs.{IsOutput};
ghost use Rattle.lusite_program.specs.Logs.{row_items};
ghost use Rattle.lusite.specs.Machine.{IsNext, IsStanding};
ghost use Rattle.lusite_program.specs.Programs.{output_names};
ghost use Rattle.luworld.specs.Needs.{sites_of};
ghost use Rattle.luworld.specs.Jobs.{IsJob, IsJobView, outputs_of};
ghost use Rattle.luworld.specs.Sites.{AreWholeOutputs, IsSoundAt};

use crate::next::{Fault, Next};
use crate::site::Site;
use crate::whole::WholeSite;
use lubase::{Name, Row};
use luflow::Status;
use luplace::Job;
use std::alloc::{AllocError, Global};
use std::marker::Model;
use std::snapshot::Snapshot;

/// How a site stands.
#[derive(Clone, Copy, Debug, Drop, PartialEq, Eq)]
pub enum Standing {
    /// Its script is done, and nothing of it was a fault.
    Ended,
    /// Its last computation was this fault.
    Faulted(Fault),
    /// It was left before the end of its script.
    Cut,
}

/// A site, by how it has gone.
#[derive(Drop)]
pub enum Gone {
    /// Item by item, as far as its machine has come.
    ByItem(Site),
    /// In another way, and its whole script.
    InWhole(WholeSite),
}

/// What a site leaves: how it stands, and its outputs so far. A contract sees what it saw of the site.
pub struct SiteReport {
    gone: Gone,
}

// By hand, so that it is proved here alone, and not in each crate that owns one.
impl Drop for SiteReport {
    fn drop(self) {
        let Self { gone: _ } = self;
    }
}

impl Model for SiteReport {
    ghost use Rattle.lusite.specs.Sites.{SiteView};
    ghost use Rattle.lusite.specs.Reports.{site_gone};

    ghost Value = { SiteView };

    ghost view = { λ a. site_gone a.gone };
}

/// Whether a site has ended.
fn has_ended(site: &Site) -> bool
    ensures only { result ≡ true → IsNext site.now.job site.now.site site.now.done Next.Ended }
    ensures all { IsNext site.now.job site.now.site site.now.done Next.Ended → result ≡ true }
{
    match site.next() {
        Next::Ended => true,
        Next::Faulted => false,
        Next::Local => false,
        Next::Take(_) => false,
        Next::Put(_, _) => false,
    }
}

impl Site {
    /// How the site stands: ended or faulted exactly where its `next` says so, else cut. Takes no memory.
    pub fn standing(&self) -> Standing
        ensures { IsStanding self.now.job self.now.site self.now.done result }
    {
        match self.fault() {
            Some(fault) => Standing::Faulted(fault),
            None if has_ended(self) => Standing::Ended,
            None => Standing::Cut,
        }
    }

    /// What the site leaves, wherever it stands. Takes no memory.
    pub fn report(self) -> SiteReport
        ensures { result ≡ self }
    {
        SiteReport {
            gone: Gone::ByItem(self),
        }
    }
}

impl SiteReport {
    ghost use Rattle.lusite.specs.Sites.{whole_site};

    /// The report of a site that has done its whole script in another way than item by item: in blocks of
    /// instants, or once an instant. By the number of each output, `names` has its name, and `rows` all its
    /// statuses where this site reports it, else nothing. Takes no memory.
    pub fn whole(
        job: Snapshot<Job>,
        site: u8,
        sites: u8,
        instants: u32,
        names: Row<Name>,
        rows: Vec<Vec<Status>>,
    ) -> SiteReport
        requires run { IsJobView job.value }
        requires inside { site < sites_of job.value.plan }
        requires sites { sites ≡ sites_of job.value.plan }
        requires instants { instants ≡ job.value.inputs.instants }
        requires names { names ≡ output_names job.value.plan }
        requires sound { IsSoundAt job.value site }
        requires whole { AreWholeOutputs job.value site (map (λ row. row.items) rows.items) }
        ensures { result ≡ whole_site job.value site }
    {
        SiteReport {
            gone: Gone::InWhole(WholeSite {
                job,
                site,
                sites,
                instants,
                names,
                rows,
            }),
        }
    }

    /// The number of the site, from 0. Takes no memory.
    pub fn site(&self) -> u8
        ensures { result ≡ self.now.site }
    {
        match &self.gone {
            Gone::ByItem(site) => site.site(),
            Gone::InWhole(site) => site.site(),
        }
    }

    /// The number of sites of the run, 1 to 16. Takes no memory.
    pub fn sites(&self) -> u8
        ensures { result ≡ sites_of self.now.job.plan }
    {
        match &self.gone {
            Gone::ByItem(site) => site.sites(),
            Gone::InWhole(site) => site.sites(),
        }
    }

    /// The number of instants of the run, 0 to 1,000,000. Takes no memory.
    pub fn instants(&self) -> u32
        ensures instants { result ≡ self.now.job.inputs.instants }
        ensures job { IsJob self.now.job }
    {
        match &self.gone {
            Gone::ByItem(site) => site.instants(),
            Gone::InWhole(site) => site.instants(),
        }
    }

    /// The names of the main outputs, of all sites, in order of declaration: by the number of each. Takes no
    /// memory.
    pub fn names(&self) -> &[Name]
        ensures { result.now ≡ output_names self.now.job.plan }
    {
        match &self.gone {
            Gone::ByItem(site) => site.names(),
            Gone::InWhole(site) => site.names(),
        }
    }

    /// How the site stands: ended or faulted exactly where its `next` said so, else cut. Takes no memory.
    pub fn standing(&self) -> Standing
        ensures { IsStanding self.now.job self.now.site self.now.done result }
    {
        match &self.gone {
            Gone::ByItem(site) => site.standing(),
            Gone::InWhole(site) => site.standing(),
        }
    }

    /// Output k as far as the site passed it: a prefix of its statuses, and all of them where the site has
    /// ended; empty where another site reports it, and where there is no output k. Takes no memory.
    pub fn outputs(&self, k: usize) -> &[Status]
        ensures { IsOutput self.now.job self.now.site self.now.done k result.now }
    {
        match &self.gone {
            Gone::ByItem(site) => site.outputs(k),
            Gone::InWhole(site) => site.outputs(k),
        }
    }

    /// All outputs, by number, each as [`SiteReport::outputs`] reports it: they are moved out of the report,
    /// and not copied.
    pub fn into_outputs(self, alloc: Global) -> Result<Vec<Vec<Status>>, AllocError>
        ensures len { IfOk result (λ rows. length rows.items ≡ length (outputs_of self.job.plan)) }
        ensures each { IfOk result (λ rows. (k : ℕ) → IsOutput self.job self.site self.done k
            (row_items (slice_get rows.items k))) }
    {
        let SiteReport { gone } = self;
        match gone {
            Gone::ByItem(site) => site.into_outputs(alloc),
            Gone::InWhole(site) => Ok(site.into_outputs()),
        }
    }
}

//! What a site leaves that has done its whole part by rows or by lists.

ghost use Rattle.std.specs.Prelude.{◌≡◌, ◌<◌, IfOk, IfSome, map};
ghost use Rattle.luworld.specs.Needs.{sites_of};
ghost use Rattle.luworld.specs.Sites.{AreWholeOutputs, IsSoundAt};
ghost use Rattle.lusite.specs.Sites.{whole_site};
ghost use Rattle.lurun.specs.Inside.{IsWholeOf};

use lubase::{Name, Row};
use luflow::Status;
use luplace::Job;
use lusite::SiteReport;
use lusite_program::output_names;
use std::alloc::{AllocError, Global};
use std::snapshot::Snapshot;

/// What of a job a report names: its sites, its instants and the names of its outputs.
pub struct Whole {
    pub job: Snapshot<Job>,
    pub sites: u8,
    pub instants: u32,
    pub names: Row<Name>,
}

impl Drop for Whole {
    fn drop(self) {
        let Self {
            job: _,
            sites: _,
            instants: _,
            names: _,
        } = self;
    }
}

impl Whole {
    /// The report of a site that leaves these rows of outputs; none where it leaves none, since it hasn't
    /// done its whole part.
    pub fn left(self, site: u8, rows: Option<Vec<Vec<Status>>>) -> Option<SiteReport>
        requires of { IsWholeOf (record { job = self.job.value; site = site }) self }
        requires sound { IfSome rows (λ _. IsSoundAt self.job.value site) }
        requires are { IfSome rows
            (λ x. AreWholeOutputs self.job.value site (map (λ row. row.items) x.items)) }
        ensures { IfSome result (λ r. r ≡ whole_site self.job.value site) }
    {
        let rows = rows?;
        let Self {
            job,
            sites,
            instants,
            names,
        } = self;
        Some(SiteReport::whole(job, site, sites, instants, names, rows))
    }
}

/// What of a job the report of a site names.
pub fn whole_of(alloc: Global, job: &Job, site: u8) -> Result<Whole, AllocError>
    requires { site < sites_of job.now.plan }
    ensures { IfOk result (IsWholeOf (record { job = job.now; site = site })) }
{
    job.recall_invariant();
    Ok(Whole {
        job: Snapshot::of(job),
        sites: job.plan().sites().len() as u8,
        instants: job.instants(),
        names: output_names(alloc, job.plan())?,
    })
}

//! A site that has done its whole script in another way than item by item.

ghost use Rattle.std.specs.Prelude.{◌≡◌, ℕ, length, slice_get};
ghost use Rattle.lusite.specs.Logs.{IsOutput};
ghost use Rattle.lusite_program.specs.Logs.{row_items};
ghost use Rattle.lusite.specs.Machine.{IsNext, IsStanding};
ghost use Rattle.lusite_program.specs.Programs.{output_names};
ghost use Rattle.luworld.specs.Needs.{sites_of};
ghost use Rattle.luworld.specs.Jobs.{IsJob, outputs_of};

use crate::report::Standing;
use lubase::{Name, Row};
use luflow::Status;
use luplace::Job;
use std::marker::Model;
use std::snapshot::Snapshot;

/// What is left of a site that has done its whole script, in blocks of instants or once an instant. A
/// contract sees the site at the end of its script.
pub struct WholeSite {
    pub(crate) job: Snapshot<Job>,
    pub(crate) site: u8,
    pub(crate) sites: u8,
    pub(crate) instants: u32,
    pub(crate) names: Row<Name>,
    /// The outputs, by the number of each: nothing where another site reports it.
    pub(crate) rows: Vec<Vec<Status>>,
}

// By hand, so that it is proved here alone, and not in each crate that owns one.
impl Drop for WholeSite {
    fn drop(self) {
        let Self {
            job: _,
            site: _,
            sites: _,
            instants: _,
            names: _,
            rows: _,
        } = self;
    }
}

impl Model for WholeSite {
    ghost use Rattle.std.specs.Prelude.{map};
    ghost use Rattle.lusite.specs.Sites.{SiteView, IsWholeSite, whole_site};

    ghost Value = { SiteView };

    ghost view = { λ a. whole_site a.job.value a.site };

    ghost invariant = { λ a. IsWholeSite a.job.value a.site a.sites a.instants a.names
        (map (λ row. row.items) a.rows.items) };
}

impl WholeSite {
    /// The number of the site.
    pub fn site(&self) -> u8
        ensures { result ≡ self.now.site }
    {
        self.site
    }

    /// The number of sites of the run.
    pub fn sites(&self) -> u8
        ensures { result ≡ sites_of self.now.job.plan }
    {
        self.sites
    }

    /// The number of instants of the run.
    pub fn instants(&self) -> u32
        ensures instants { result ≡ self.now.job.inputs.instants }
        ensures job { IsJob self.now.job }
    {
        self.instants
    }

    /// The names of the main outputs, by the number of each.
    pub fn names(&self) -> &[Name]
        ensures { result.now ≡ output_names self.now.job.plan }
    {
        self.names.as_slice()
    }

    /// How the site stands: it has ended.
    pub fn standing(&self) -> Standing
        ensures { IsStanding self.now.job self.now.site self.now.done result }
    {
        let _ = &self.rows;
        Standing::Ended
    }

    /// All of output k; empty where another site reports it, and where there is no output k.
    pub fn outputs(&self, k: usize) -> &[Status]
        ensures { IsOutput self.now.job self.now.site self.now.done k result.now }
    {
        match self.rows.get(k) {
            Some(row) => row.as_slice(),
            None => &[],
        }
    }

    /// All outputs, by number, moved out.
    pub fn into_outputs(self) -> Vec<Vec<Status>>
        ensures len { length result.items ≡ length (outputs_of self.job.plan) }
        ensures each { (k : ℕ) → IsOutput self.job self.site self.done k
            (row_items (slice_get result.items k)) }
    {
        let Self {
            job: _,
            site: _,
            sites: _,
            instants: _,
            names: _,
            rows,
        } = self;
        rows
    }
}

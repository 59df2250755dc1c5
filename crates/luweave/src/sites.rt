//! The new sites of a job.

ghost use Rattle.std.specs.Prelude.{◌≡◌, ◌<◌, ℕ, Some, slice_get, IfOk};
ghost use Rattle.std.specs.Option.{ForSome};
ghost use Rattle.luworld.specs.Needs.{sites_of};
ghost use Rattle.lusite.specs.Sites.{SiteView};
ghost use Rattle.luweave.specs.Worlds.{IsNewWorld};

use luplace::Job;
use lusite::{Site, project};
use std::alloc::{AllocError, Global};

fn site_of(alloc: Global, job: &Job, site: u8) -> Result<Site, AllocError>
    requires { site < sites_of job.now.plan }
    ensures job { IfOk result (λ x. x.job ≡ job.now) }
    ensures site { IfOk result (λ x. x.site ≡ site) }
    ensures done { IfOk result (λ x. x.done ≡ 0) }
{
    let program = project(alloc, job.plan(), site)?;
    let inputs = job.inputs_at(alloc, site)?;
    Site::new(alloc, program, inputs)
}

/// The new sites of a job, in order.
pub fn new_sites(alloc: Global, job: &Job) -> Result<Vec<Site>, AllocError>
    ensures new { IfOk result (λ sites. IsNewWorld job.now.plan sites.items) }
    ensures job { IfOk result (λ sites. (s : ℕ) → ForSome (slice_get sites.items s)
        (λ v. v.job ≡ job.now)) }
{
    let count = job.plan().sites().len() as u8;
    let mut sites = Vec::with_capacity(alloc, count as usize)?;
    for site in 0..count {
        let new = site_of(alloc, job, site)?;
        sites.push_reserved(new);
    }
    Ok(sites)
}

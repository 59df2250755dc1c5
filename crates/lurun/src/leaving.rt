//! What all stations of a run left.

ghost use Rattle.std.specs.Prelude.{◌≡◌, ◌≤◌, ◌+◌, IfOk, IfSome, None, map};
ghost use Rattle.lurun.specs.declared.engine.Engine.TheVariants as engines;
ghost use Rattle.lurun.specs.Crew.{reported};
ghost use Rattle.lurun.specs.Stations.{AllGoBy, AreLeft};

use crate::report::Report;
use lusite::SiteReport;
use std::alloc::{AllocError, Global};

/// The reports of all sites; none where a station left none.
pub fn all_left(alloc: Global, reports: Vec<Report>) -> Result<Option<Vec<SiteReport>>, AllocError>
    ensures left { IfOk result (λ o. IfSome o (λ left. AreLeft reports.items left.items)) }
    ensures none { IfOk result
        (λ o. o ≡ None → AllGoBy engines.Items (reported reports.items) → ⊥) }
{
    let mut all = Vec::with_capacity(alloc, reports.len())?;
    for report in reports {
        let Some(left) = report.into_left() else {
            return Ok(None);
        };
        all.push_reserved(left);
    }
    Ok(Some(all))
}

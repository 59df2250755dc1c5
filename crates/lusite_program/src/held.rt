//! What a site holds of its flows.

ghost use Rattle.std.specs.Prelude.{◌≡◌, ℕ, IfOk, length, replicate, Some, slice_get};
ghost use Rattle.std.specs.Option.{ForSome};
ghost use Rattle.lueval_lines.specs.declared.cell.Cell.TheVariants.{Absent};
ghost use Rattle.lusite_program.specs.Logs.{IsNewRow};
ghost use Rattle.lusite_program.specs.Programs.{part_of, places_of};

use crate::program::SiteProgram;
use lueval_lines::Cell;
use luflow::Status;
use std::alloc::{AllocError, Global};

fn new_row(alloc: Global, wanted: bool, instants: u32) -> Result<Vec<Status>, AllocError>
    ensures { IfOk result (λ x. IsNewRow wanted instants x) }
{
    let room = if wanted { instants as usize } else { 0 };
    Ok(Vec::with_capacity(alloc, room)?)
}

/// Empty logs with room for all statuses of the site's outputs.
fn new_logs(
    alloc: Global,
    program: &SiteProgram,
    instants: u32,
) -> Result<Vec<Vec<Status>>, AllocError>
    ensures len { IfOk result (λ x. length x.items
        ≡ length (places_of program.now.plan program.now.site)) }
    ensures each { IfOk result (λ x. (k i : ℕ) → slice_get (places_of program.now.plan
        program.now.site) k ≡ Some i → ForSome (slice_get x.items k)
        (λ y. IsNewRow (part_of program.now.plan program.now.site i).reported instants y)) }
{
    let (site_flows, _, _) = program.code();
    let mut logs = Vec::with_capacity(alloc, site_flows.len())?;
    for k in 0..site_flows.len() {
        let row = new_row(alloc, site_flows[k].reported, instants)?;
        logs.push_reserved(row);
    }
    Ok(logs)
}

/// What a site holds: cells for each flow that it computes or takes, and the logs.
pub struct Held {
    /// What each flow that the site computes or takes shows, by its number among these.
    pub shown: Vec<Cell>,
    /// The last value of each of them before this instant.
    pub lasts: Vec<Cell>,
    /// At how many instants before this one each of them was present.
    pub counts: Vec<u32>,
    /// The statuses so far of each of them that the site reports.
    pub logs: Vec<Vec<Status>>,
}

/// What a new site holds: nothing is shown, no flow was present, and there is room for what is reported.
pub fn new_held(alloc: Global, program: &SiteProgram, instants: u32) -> Result<Held, AllocError>
    ensures shown { IfOk result (λ x. x.shown.items
        ≡ replicate (length (places_of program.now.plan program.now.site)) Absent) }
    ensures lasts { IfOk result (λ x. x.lasts.items
        ≡ replicate (length (places_of program.now.plan program.now.site)) Absent) }
    ensures counts { IfOk result (λ x. x.counts.items
        ≡ replicate (length (places_of program.now.plan program.now.site)) 0) }
    ensures len { IfOk result (λ x. length x.logs.items
        ≡ length (places_of program.now.plan program.now.site)) }
    ensures each { IfOk result (λ x. (k i : ℕ) → slice_get (places_of program.now.plan
        program.now.site) k ≡ Some i → ForSome (slice_get x.logs.items k)
        (λ y. IsNewRow (part_of program.now.plan program.now.site i).reported instants y)) }
{
    let rows = program.places().len();
    let shown = Vec::from_elem(alloc, Cell::Absent, rows)?;
    let lasts = Vec::from_elem(alloc, Cell::Absent, rows)?;
    let counts = Vec::from_elem(alloc, 0, rows)?;
    let logs = new_logs(alloc, program, instants)?;
    Ok(Held {
        shown,
        lasts,
        counts,
        logs,
    })
}

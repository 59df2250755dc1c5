//! The logs of a site's outputs.

ghost use Rattle.std.specs.Prelude.{◌≡◌, ◌≢◌, ℕ, ◌<◌, true, false, map, IfOk, length, vec_capacity, slice_get, Option, Some};
ghost use Rattle.std.specs.Option.{ForSome};
ghost use Rattle.luworld.specs.Jobs.{outputs_of};
ghost use Rattle.lusite_program.specs.Logs.{Log, IsDrawn, IsNoted, log_in, log_view, logs_in, row_items};
ghost use Rattle.lusite_program.specs.Programs.{places_of};
ghost use Rattle.luflow.specs.declared.data.Status.{Status};

use crate::program::SiteProgram;
use luflow::Status;
use std::alloc::{AllocError, Global};
use std::mem;

/// Adds a status to log i.
fn push_log(logs: &mut Vec<Vec<Status>>, i: usize, status: Status)
    requires within { i < length logs.old.items }
    requires room { ForSome (slice_get logs.old.items i) (λ x. length x.items < vec_capacity x) }
    ensures noted { ForSome (slice_get logs.old.items i) (λ x. IsNoted (map log_view logs.old.items)
        i (log_view x) status (map log_view logs.new.items)) }
    ensures len { length logs.new.items ≡ length logs.old.items }
{
    let row = &mut logs[i];
    row.push_reserved(status);
}

/// Adds a status to log i, if it is wanted.
#[inline(always)]
pub fn note(logs: &mut Vec<Vec<Status>>, wanted: bool, i: usize, status: Status)
    requires within { wanted ≡ true → i < length logs.old.items }
    requires room { wanted ≡ true → ForSome (slice_get logs.old.items i)
        (λ x. length x.items < vec_capacity x) }
    ensures left { wanted ≡ false → logs.new.items ≡ logs.old.items }
    ensures noted { wanted ≡ true → ForSome (slice_get logs.old.items i)
        (λ x. IsNoted (map log_view logs.old.items) i (log_view x) status
        (map log_view logs.new.items)) }
    ensures len { length logs.new.items ≡ length logs.old.items }
{
    if wanted {
        push_log(logs, i, status);
    }
}

/// Moves log i out.
fn draw(alloc: Global, logs: &mut Vec<Vec<Status>>, i: usize) -> Vec<Status>
    ensures drawn { result.items ≡ row_items (slice_get logs.old.items i) }
    ensures others { (j : ℕ) → j ≢ i → slice_get logs.new.items j ≡ slice_get logs.old.items j }
{
    if i < logs.len() {
        return mem::replace(&mut logs[i], Vec::new(alloc));
    }
    Vec::new(alloc)
}

/// Moves the log of a number out, if there is one.
fn draw_reported(alloc: Global, logs: &mut Vec<Vec<Status>>, number: Option<usize>) -> Vec<Status>
    ensures drawn { IsDrawn number logs.old.items result }
    ensures others { (j : ℕ) → (number ≡ Some j → ⊥) → slice_get logs.new.items j
        ≡ slice_get logs.old.items j }
{
    match number {
        Some(i) => draw(alloc, logs, i),
        None => Vec::new(alloc),
    }
}

/// Moves the statuses of all outputs out, by the number of each; nothing where another site reports it.
pub fn drawn(
    alloc: Global,
    program: &SiteProgram,
    mut logs: Vec<Vec<Status>>,
) -> Result<Vec<Vec<Status>>, AllocError>
    requires { length logs.items ≡ length (places_of program.now.plan program.now.site) }
    ensures len { IfOk result (λ rows. length rows.items
        ≡ length (outputs_of program.now.plan)) }
    ensures each { IfOk result (λ rows. (k : ℕ) → row_items (slice_get rows.items k)
        ≡ log_in program.now (logs_in program.now logs.items) (slice_get (outputs_of
        program.now.plan) k)) }
{
    let count = program.outputs();
    let mut rows = Vec::with_capacity(alloc, count)?;
    for k in 0..count {
        let row = draw_reported(alloc, &mut logs, program.reported_flow(k));
        rows.push_reserved(row);
    }
    Ok(rows)
}

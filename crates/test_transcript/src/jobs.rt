//! Jobs of texts, and of a line's files.

use crate::lines::word;
use luplace::Job;
use lusdist_answers::CallError;
use lusdist_answers::jobs::job_for;
use lusdist_answers::sources::{flat_of, job_of, plan_of};
use lusdist_shell::Files;
use std::alloc::Global;

fn read_job(alloc: Global, program: &str, place: &str, table: &str) -> Result<Job, CallError> {
    let flat = flat_of(alloc, program.as_bytes(), "main")?;
    let plan = plan_of(alloc, flat, place.as_bytes())?;
    job_of(alloc, plan, table.as_bytes())
}

/// The job of these texts; `None` where they are refused.
pub fn job_of_texts(alloc: Global, program: &str, place: &str, table: &str) -> Option<Job> {
    read_job(alloc, program, place, table).ok()
}

/// The job of a line's files; `None` where they are refused.
pub fn job_at<F: Files>(alloc: Global, files: &F, line: &str) -> Option<Job> {
    let (program, place, table) = (word(line, 1), word(line, 2), word(line, 3));
    job_for(alloc, files, program, place, table, "main").ok()
}

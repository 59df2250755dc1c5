//! Lines of links and of jobs: what each comes to.

use crate::blocks::put_rows;
use crate::counters::{are_all_counted, is_copy_handed};
use crate::jobs::job_at;
use crate::links::put_passed;
use crate::parties::put_driven;
use crate::runs::{put_outputs, put_run};
use crate::schedules::all_agree_in_ring;
use crate::whole::put_whole;
use crate::worlds::put_left;
use luplace::Job;
use lurun::collect;
use lusdist_shell::Files;
use std::io;
use std::rt::Clock;
use std::sync::Wait;
use std::thread::Threads;

/// Word k of a line; an empty one behind the last.
pub fn word(line: &str, k: usize) -> &str {
    line.split_whitespace().nth(k).unwrap_or("")
}

/// The number that word k spells; 0 for any other word.
pub fn number(line: &str, k: usize) -> u32 {
    word(line, k).parse().unwrap_or(0)
}

/// Writes what a line comes to, of a job.
fn put_of_job<R: Threads + Wait + Clock + Sync>(
    threads: &R,
    rt: &HostRuntime,
    job: &Job,
    line: &str,
) -> io::Result<()> {
    match word(line, 0) {
        "collect" => put_outputs(rt, job, collect(rt.alloc(), Vec::new(rt.alloc()))),
        "drive" => put_driven(threads, rt, job, line),
        "job" => put_whole(threads, rt, job, line),
        "left" => put_left(rt, job, line),
        "rows" | "lists" => put_rows(threads, rt, job, line),
        _ => put_run(threads, rt, job, line),
    }
}

/// Writes what a line comes to that names a job's files.
fn put_of_files<R: Threads + Wait + Clock + Sync, F: Files>(
    threads: &R,
    rt: &HostRuntime,
    files: &F,
    line: &str,
) -> io::Result<()> {
    match job_at(rt.alloc(), files, line) {
        Some(job) => put_of_job(threads, rt, &job, line),
        None => println!(rt; "! no job"),
    }
}

/// Writes whether something is so.
fn put_so(rt: &HostRuntime, is_so: bool) -> io::Result<()> {
    println!(rt; "{}", if is_so { "= so" } else { "! not so" })
}

/// Writes what a line comes to.
pub fn put_line<R: Threads + Wait + Sync + Clock + Print, F: Files>(
    threads: &R,
    rt: &HostRuntime,
    files: &F,
    line: &str,
) -> io::Result<()> {
    match word(line, 0) {
        "ring" | "channel" => put_passed(threads, rt.alloc(), line),
        "counters" => put_so(rt, are_all_counted(rt.alloc())),
        "inputs" => put_so(rt, is_copy_handed(rt.alloc())),
        "schedules" => put_so(rt, all_agree_in_ring(rt.alloc())),
        _ => put_of_files(threads, rt, files, line),
    }
}

//! The stations of a job, or some of them, run as a line asks for.

use crate::gates::{Seen, Watch};
use crate::lines::{number, word};
use luflow::Outputs;
use luplace::Job;
use lurun::{RunError, Station, run_crew, run_threads, stations};
use lutab::write_outputs;
use std::alloc::{AllocError, Global};
use std::io;
use std::rt::Clock;
use std::sync::Wait;
use std::sync::atomic::Ordering;
use std::thread::Threads;

/// The stations of a job of two sites: all, `none`, that of the `first` site, or `strangers`: both, but of
/// two sets of stations, so that the other ends of their links are dropped.
fn chosen(alloc: Global, job: &Job, part: &str) -> Result<Vec<Station>, AllocError> {
    if part == "none" {
        return Ok(Vec::new(alloc));
    }
    let mut chosen = stations(alloc, job)?;
    if part == "first" || part == "strangers" {
        drop(chosen.pop());
    }
    if part == "strangers" {
        if let Some(other) = stations(alloc, job)?.pop() {
            chosen.push(other)?;
        }
    }
    Ok(chosen)
}

/// Writes outputs, or why there are none.
pub fn put_outputs(
    rt: &HostRuntime,
    job: &Job,
    outputs: Result<Outputs, RunError>,
) -> io::Result<()> {
    match outputs {
        Ok(outputs) => {
            let text = write_outputs(rt.alloc(), job.plan().flat(), &outputs)?;
            print!(rt; "{text}")
        }
        Err(error) => println!(rt; "! {error}"),
    }
}

/// Runs stations, each by a thread of its own, or by so many workers, and writes what they answer.
fn put_answer<R: Threads + Wait + Clock + Sync>(
    threads: &R,
    rt: &HostRuntime,
    job: &Job,
    stations: Vec<Station>,
    workers: u8,
    gate: &Watch,
) -> io::Result<()> {
    let outputs = if workers == 0 {
        run_threads(threads, rt.alloc(), stations, gate)
    } else {
        run_crew(threads, rt.alloc(), stations, workers, gate)
    };
    put_outputs(rt, job, outputs)
}

/// Runs the stations of a job of two sites one after the other, each alone.
fn put_each<R: Threads + Wait + Clock + Sync>(
    threads: &R,
    rt: &HostRuntime,
    job: &Job,
    mut first: Vec<Station>,
    workers: u8,
    gate: &Watch,
) -> io::Result<()> {
    let mut last = Vec::with_capacity(rt.alloc(), 1)?;
    if let Some(station) = first.pop() {
        last.push_reserved(station);
    }
    put_answer(threads, rt, job, first, workers, gate)?;
    put_answer(threads, rt, job, last, workers, gate)
}

/// Writes how many items a site came to, and how far it was.
fn put_seen(rt: &HostRuntime, seen: &Seen) -> io::Result<()> {
    let came = seen.came.load(Ordering::SeqCst);
    let reached = seen.reached.load(Ordering::SeqCst);
    println!(rt; "= {came} items, {reached} instants")
}

/// Runs the stations that a line asks for, under a gate, and writes what they answer.
fn put_chosen<R: Threads + Wait + Clock + Sync>(
    threads: &R,
    rt: &HostRuntime,
    job: &Job,
    line: &str,
    gate: &Watch,
) -> io::Result<()> {
    let workers = u8::try_from(number(line, 4)).unwrap_or(u8::MAX);
    let part = word(line, 6);
    let stations = chosen(rt.alloc(), job, part)?;
    if part == "each" {
        put_each(threads, rt, job, stations, workers, gate)
    } else {
        put_answer(threads, rt, job, stations, workers, gate)
    }
}

/// Runs the stations that a line asks for, by its workers and under its gate, and writes what they answer,
/// how many items each of the first two sites came to, and how far it was.
pub fn put_run<R: Threads + Wait + Clock + Sync>(
    threads: &R,
    rt: &HostRuntime,
    job: &Job,
    line: &str,
) -> io::Result<()> {
    let gate = Watch::new(word(line, 5));
    put_chosen(threads, rt, job, line, &gate)?;
    put_seen(rt, &gate.first)?;
    put_seen(rt, &gate.second)?;
    if gate.failed.load(Ordering::SeqCst) == 0 {
        return Ok(());
    }
    println!(rt; "! the gate has failed")
}

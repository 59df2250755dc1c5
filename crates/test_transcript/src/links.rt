//! What links pass, in one thread and over two.

ghost use Rattle.std.specs.Prelude.{◌≡◌, ◌<◌, [], length};
ghost use Rattle.lulink.specs.Lists.{list_of};

mod calls;
mod ends;
mod feeder;
mod jobs;
mod passing;
mod runs;
mod task;

use crate::links::calls::{drop_receiver, drop_sender, expect, fill_and_leave, put_alone};
use crate::links::ends::{Receives, Sends};
use crate::links::feeder::Feeder;
use crate::links::jobs::job_of_numbers;
use crate::links::passing::pass;
use crate::links::runs::pass_runs;
use crate::links::task::{Task, task_of};
use lulink::Msg;
use luplace::Job;
use std::alloc::Global;
use std::io;
use std::rt::Clock;
use std::sync::Wait;
use std::thread::Threads;
use std::time::Instant;
use test_reference::list_of_link;

/// What is reported where a list isn't passed as it is.
const OTHERWISE: &str = "not just its list";

/// Does a case with both ends of a link, whose list this is. Where it goes wrong, what was expected.
fn does<R: Threads + Wait + Sync, S: Sends + Send, D: Receives + Send>(
    rt: &R,
    tx: Feeder<'_, S>,
    rx: D,
    list: &[Msg],
    case: &str,
) -> Result<(), &'static str> {
    match case {
        "fill" => fill_and_leave(rt, tx, rx),
        "alone" => put_alone(rt, tx, rx),
        "sender" => drop_sender(tx, rx),
        "receiver" => drop_receiver(tx, rx),
        "tries" => expect(pass(rt, tx, rx, list, false), OTHERWISE),
        "waits" => expect(pass(rt, tx, rx, list, true), OTHERWISE),
        _ => Err("no such case"),
    }
}

/// Does a case over a new ring.
fn over_ring<R: Threads + Wait + Sync>(
    rt: &R,
    alloc: Global,
    job: &Job,
    list: &[Msg],
    task: Task<'_>,
) -> Result<(), &'static str>
    requires capacity { 0 < task.capacity }
    requires list { list.now ≡ list_of job.now 0 }
{
    let Ok((tx, rx)) = lulink::open_link(alloc, job, 0, task.capacity) else {
        return Err("no memory");
    };
    match task.case {
        "runs" => pass_runs(rt, alloc, tx, rx, list),
        case => does(rt, Feeder { tx, list, at: 0 }, rx, list, case),
    }
}

/// Does a case over a new channel.
fn over_channel<R: Threads + Wait + Sync>(
    rt: &R,
    alloc: Global,
    job: &Job,
    list: &[Msg],
    task: Task<'_>,
) -> Result<(), &'static str>
    requires capacity { 0 < task.capacity }
    requires list { list.now ≡ list_of job.now 0 }
{
    let Ok((tx, rx)) = test_reference::open_link(alloc, job, 0, task.capacity) else {
        return Err("no memory");
    };
    does(rt, Feeder { tx, list, at: 0 }, rx, list, task.case)
}

/// Does a case as often as it is to be done, each time over a new link.
fn done<R: Threads + Wait + Sync>(
    rt: &R,
    alloc: Global,
    job: &Job,
    list: &[Msg],
    task: Task<'_>,
) -> Result<(), &'static str>
    requires capacity { 0 < task.capacity }
    requires list { list.now ≡ list_of job.now 0 }
{
    for _ in 0..task.runs {
        if task.form == "ring" {
            over_ring(rt, alloc, job, list, task)?;
        } else {
            over_channel(rt, alloc, job, list, task)?;
        }
    }
    Ok(())
}

/// The nanoseconds since an instant.
fn nanos_since(clock: &impl Clock, start: &Instant) -> io::Result<u64> {
    let span = start.elapsed(clock)?;
    let whole = span.as_secs().saturating_mul(1_000_000_000);
    Ok(whole.saturating_add(u64::from(span.subsec_nanos())))
}

/// Does a case over a job's list, and writes what it comes to; of one that is done several times, how long it
/// took too.
fn timed<R: Threads + Wait + Sync + Clock + Print>(
    rt: &R,
    alloc: Global,
    job: &Job,
    list: &[Msg],
    task: Task<'_>,
) -> io::Result<()>
    requires capacity { 0 < task.capacity }
    requires list { list.now ≡ list_of job.now 0 }
{
    let start = Instant::now(rt)?;
    let reported = done(rt, alloc, job, list, task);
    let nanos = nanos_since(rt, &start)?;
    let messages = (list.len() as u64).saturating_mul(u64::from(task.runs));
    match reported {
        Ok(()) if task.runs > 1 => println!(rt; "= {messages} messages, {nanos} ns"),
        Ok(()) => println!(rt; "= {messages} messages"),
        Err(what) => println!(rt; "! {what}"),
    }
}

/// Writes what a task comes to, over a job.
fn tell<R: Threads + Wait + Sync + Clock + Print>(
    rt: &R,
    alloc: Global,
    job: &Job,
    task: Task<'_>,
) -> io::Result<()>
    requires { 0 < task.capacity }
{
    let list = list_of_link(alloc, job, 0)?;
    timed(rt, alloc, job, list.as_slice(), task)
}

/// Writes what a line comes to that asks for a case of links.
pub fn put_passed<R: Threads + Wait + Sync + Clock + Print>(
    rt: &R,
    alloc: Global,
    line: &str,
) -> io::Result<()> {
    let Some(task) = task_of(line) else {
        return Ok(());
    };
    match job_of_numbers(alloc, task.instants) {
        Some(job) => tell(rt, alloc, &job, task),
        None => println!(rt; "! no job"),
    }
}

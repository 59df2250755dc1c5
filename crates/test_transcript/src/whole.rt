//! A whole job, run as a line asks for.

ghost use Rattle.lurun.specs.Runs.{AreSome};

use crate::barrier::Barrier;
use crate::lines::{number, word};
use crate::runs::put_outputs;
use luplace::Job;
use lurun::{Engine, Options, Workers, run};
use std::io;
use std::rt::Clock;
use std::sync::Wait;
use std::thread::Threads;

/// The workers of a line: `each` site its own, `auto`, or so many, one at least.
fn workers_of(line: &str) -> Workers
    ensures { AreSome result }
{
    match word(line, 4) {
        "each" => Workers::EachSite,
        "auto" => Workers::Auto,
        _ => Workers::Crew(u8::try_from(number(line, 4)).unwrap_or(u8::MAX).max(1)),
    }
}

/// How the sites of a line go on: by `rows`, by `lists`, by `items`, or for any other word as the plan
/// allows.
fn way_of(line: &str) -> Option<Engine> {
    match word(line, 5) {
        "rows" => Some(Engine::Rows),
        "lists" => Some(Engine::Lists),
        "items" => Some(Engine::Items),
        _ => None,
    }
}

/// Writes how many runs were given up, where some were, and whether two threads met, where they could.
fn put_seen(rt: &HostRuntime, gate: &Barrier, part: &str) -> io::Result<()> {
    let given_up = gate.given_up();
    if given_up > 0 {
        println!(rt; "= {given_up} given up")?;
    }
    if part != "meet" && part != "alone" {
        return Ok(());
    }
    println!(rt;
        "{}",
        if gate.was_met() {
            "= two threads"
        } else {
            "= one thread"
        }
    )
}

/// Runs a job by the workers and in the way that a line asks for, and writes what it answers, how many runs
/// were given up, and whether two threads met, where the line asks for that.
pub fn put_whole<R: Threads + Wait + Clock + Sync>(
    threads: &R,
    rt: &HostRuntime,
    job: &Job,
    line: &str,
) -> io::Result<()> {
    let part = word(line, 6);
    let gate = Barrier::new(part);
    let options = Options {
        workers: workers_of(line),
        way: way_of(line),
    };
    put_outputs(rt, job, run(threads, rt.alloc(), job, options, &gate))?;
    put_seen(rt, &gate, part)
}

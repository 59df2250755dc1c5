//! Two sites that are driven item by item.

ghost use Rattle.std.specs.Prelude.{◌≡◌, ◌<◌, IfOk};
ghost use Rattle.luworld.specs.Needs.{sites_of};
ghost use Rattle.lulink.specs.Lists.{list_of};
ghost use Rattle.test_transcript.specs.Driven.{IsPlain};

use crate::driven::{Feeder, Left, Plain, driven, takes_in};
use crate::lines::number;
use crate::runs::put_outputs;
use lulink::{Body, Msg, Rx, open_link};
use luplace::Job;
use lurun::collect;
use lusite::{Site, SiteReport, Standing, Status, project};
use std::alloc::{AllocError, Global};
use std::io;
use std::sync::Wait;
use std::thread::Threads;
use test_reference::{list_of_link, script_of};

fn site_of(alloc: Global, job: &Job, site: u8) -> Result<Site, AllocError>
    requires { site < sites_of job.now.plan }
    ensures job { IfOk result (λ x. x.job ≡ job.now) }
    ensures site { IfOk result (λ x. x.site ≡ site) }
    ensures done { IfOk result (λ x. x.done ≡ 0) }
{
    let program = project(alloc, job.plan(), site)?;
    let inputs = job.inputs_at(alloc, site)?;
    Site::new(alloc, program, inputs)
}

/// The unused ends of a link of a job, whose list this is.
fn ends_of<'l>(
    alloc: Global,
    job: &Job,
    link: usize,
    list: &'l [Msg],
) -> Result<(Feeder<'l>, Rx), AllocError>
    requires { list.now ≡ list_of job.now link }
{
    let capacity = job.plan().capacity();
    if capacity == 0 {
        return Err(AllocError);
    }
    let Ok((tx, rx)) = open_link(alloc, job, link, capacity) else {
        return Err(AllocError);
    };
    Ok((Feeder { tx, list, at: 0 }, rx))
}

/// Writes what a message carries.
fn put_body(rt: &HostRuntime, body: Body) -> io::Result<()> {
    match body {
        Body::Value(datum) => print!(rt; " {datum:?}"),
        Body::Close => print!(rt; " close"),
    }
}

/// Writes the first messages of a list.
pub fn put_taken(rt: &HostRuntime, list: &[Msg], count: usize) -> io::Result<()> {
    print!(rt; "= taken")?;
    for msg in list.iter().take(count) {
        put_body(rt, msg.body)?;
    }
    println!(rt; "")
}

/// Writes how a site stands.
fn put_standing(rt: &HostRuntime, standing: Standing) -> io::Result<()> {
    match standing {
        Standing::Ended => print!(rt; "= ended"),
        Standing::Cut => print!(rt; "= cut"),
        Standing::Faulted(fault) => {
            let (variable, instant, kind) = (fault.variable, fault.instant, fault.kind);
            print!(rt; "= fault {variable} {instant} {kind}")
        }
    }
}

/// Writes a status, `-` where it is absent.
fn put_status(rt: &HostRuntime, status: Status) -> io::Result<()> {
    match status {
        Status::Present(datum) => print!(rt; " {datum:?}"),
        Status::Absent => print!(rt; " -"),
    }
}

/// Writes an output, by its number.
pub fn put_output(rt: &HostRuntime, k: usize, statuses: &[Status]) -> io::Result<()> {
    print!(rt; "= output {k}")?;
    for status in statuses {
        put_status(rt, *status)?;
    }
    println!(rt; "")
}

/// Writes what a site leaves: how it stands, how many items it did, and its outputs.
fn put_report(rt: &HostRuntime, report: &SiteReport, count: usize) -> io::Result<()> {
    put_standing(rt, report.standing())?;
    println!(rt; " after {count} items")?;
    for k in 0..report.names().len() {
        put_output(rt, k, report.outputs(k))?;
    }
    Ok(())
}

/// The first two sites of a job, new.
fn both_sites(alloc: Global, job: &Job) -> Result<(Site, Site), AllocError>
    requires { 1 < sites_of job.now.plan }
    ensures job { IfOk result (λ x. x.1.job ≡ job.now) }
    ensures site { IfOk result (λ x. x.1.site ≡ 1) }
    ensures done { IfOk result (λ x. x.1.done ≡ 0) }
{
    let one = site_of(alloc, job, 0)?;
    let two = site_of(alloc, job, 1)?;
    Ok((one, two))
}

/// The unused ends of the first two links of a job, the senders' and the receivers'.
fn all_ends<'l>(
    alloc: Global,
    job: &Job,
    first: &'l [Msg],
    second: &'l [Msg],
) -> Result<((Feeder<'l>, Feeder<'l>), (Rx, Rx)), AllocError>
    requires first { first.now ≡ list_of job.now 0 }
    requires second { second.now ≡ list_of job.now 1 }
{
    let (tx, rx) = ends_of(alloc, job, 0, first)?;
    let (other_tx, other_rx) = ends_of(alloc, job, 1, second)?;
    Ok(((tx, other_tx), (rx, other_rx)))
}

/// Drives the two sites of a job up to these numbers of items.
fn drive<R: Threads + Wait + Sync>(
    threads: &R,
    alloc: Global,
    job: &Job,
    plain: Plain<'_>,
    most: (usize, usize),
) -> Result<(Left, Left), AllocError>
    requires two { 1 < sites_of job.now.plan }
    requires plain { IsPlain job.now 1 plain.script.now plain.first.now plain.second.now }
{
    let (feeders, takers) = all_ends(alloc, job, plain.first, plain.second)?;
    let sites = both_sites(alloc, job)?;
    Ok(driven(threads, sites, feeders, takers, plain, most))
}

/// Writes what both sites leave, after so many items each, and what the second took from each link.
fn put_left(
    rt: &HostRuntime,
    reports: &[SiteReport],
    counts: (usize, usize),
    plain: Plain<'_>,
) -> io::Result<()> {
    for (report, count) in reports.iter().zip([counts.0, counts.1]) {
        put_report(rt, report, count)?;
    }
    put_taken(rt, plain.first, takes_in(plain.script, counts.1, 0))?;
    put_taken(rt, plain.second, takes_in(plain.script, counts.1, 1))
}

/// Writes what two sites leave, and what both reports say together.
fn put_all(
    rt: &HostRuntime,
    job: &Job,
    reports: Vec<SiteReport>,
    counts: (usize, usize),
    plain: Plain<'_>,
) -> io::Result<()> {
    put_left(rt, &reports, counts, plain)?;
    put_outputs(rt, job, collect(rt.alloc(), reports))
}

/// Drives the two sites of a job up to the numbers of items that a line names, by what the plain programs
/// say, and writes what both leave.
fn put_sites<R: Threads + Wait + Sync>(
    threads: &R,
    rt: &HostRuntime,
    job: &Job,
    plain: Plain<'_>,
    line: &str,
) -> io::Result<()>
    requires two { 1 < sites_of job.now.plan }
    requires plain { IsPlain job.now 1 plain.script.now plain.first.now plain.second.now }
{
    let most = (number(line, 4) as usize, number(line, 5) as usize);
    let mut reports = Vec::with_capacity(rt.alloc(), 2)?;
    let (one, two) = drive(threads, rt.alloc(), job, plain, most)?;
    let counts = (one.1, two.1);
    reports.push_reserved(one.0);
    reports.push_reserved(two.0);
    put_all(rt, job, reports, counts, plain)
}

/// The lists of the first two links of a job.
pub fn lists_of(alloc: Global, job: &Job) -> Result<(Vec<Msg>, Vec<Msg>), AllocError>
    requires { 1 < sites_of job.now.plan }
    ensures first { IfOk result (λ x. x.0.items ≡ list_of job.now 0) }
    ensures second { IfOk result (λ x. x.1.items ≡ list_of job.now 1) }
{
    let first = list_of_link(alloc, job, 0)?;
    let second = list_of_link(alloc, job, 1)?;
    Ok((first, second))
}

/// Drives the two sites of a job up to the numbers of items that a line names, and writes what both leave,
/// what was taken from the first two links, and what both reports say together.
pub fn put_driven<R: Threads + Wait + Sync>(
    threads: &R,
    rt: &HostRuntime,
    job: &Job,
    line: &str,
) -> io::Result<()> {
    let alloc = rt.alloc();
    if job.plan().sites().len() < 2 {
        return println!(rt; "! too few sites");
    }
    let script = script_of(alloc, job, 1)?;
    let (first, second) = lists_of(alloc, job)?;
    let plain = Plain {
        script: &script,
        first: &first,
        second: &second,
    };
    put_sites(threads, rt, job, plain, line)
}

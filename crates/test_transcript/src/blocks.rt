//! Sites that work in blocks of instants, or once an instant: those of a whole job, or one that works in
//! blocks over links whose other ends a thread of the line's own holds.

ghost use Rattle.std.specs.Prelude.{◌≡◌, ◌<◌, ℕ, IfOk, Some, slice_get};
ghost use Rattle.luworld.specs.Needs.{sites_of};
ghost use Rattle.lulink.specs.Lists.{list_of};
ghost use Rattle.lulink.specs.Views.{IsUnusedReceiver, IsUnusedSender, ReceiverView, SenderView};

use crate::barrier::Barrier;
use crate::driven::Feeder;
use crate::lines::{number, word};
use crate::parties::{lists_of, put_output, put_taken};
use crate::runs::put_outputs;
use lublock_site::{RowCode, RowStation};
use luflow::{Flat, Status};
use lulink::{Msg, Rx, Tx, open_link};
use luplace::Job;
use lurun::{Engine, Station, run_crew, stations_by};
use luworld::Turn;
use std::alloc::{AllocError, Global};
use std::rt::Clock;
use std::sync::Wait;
use std::thread::Threads;
use std::{io, thread};

/// How often a loop looks before it counts as a failure.
const LOOKS: u64 = 10_000_000;

/// The last of some stations.
fn last_of(stations: Option<Vec<Station>>) -> Option<Station> {
    stations?.pop()
}

/// The stations of a job that a line asks for, in blocks or once an instant: all, `none`, that of the `first`
/// site, or `strangers`: both, but of two sets of stations, so that the other ends of their links are
/// dropped. None where a site can't go on so.
fn chosen(alloc: Global, job: &Job, line: &str) -> Result<Option<Vec<Station>>, AllocError> {
    let engine = match word(line, 0) {
        "lists" => Engine::Lists,
        _ => Engine::Rows,
    };
    let Some(mut chosen) = stations_by(alloc, job, engine)? else {
        return Ok(None);
    };
    let part = word(line, 5);
    if part == "first" || part == "none" || part == "strangers" {
        drop(chosen.pop());
    }
    if part == "none" {
        drop(chosen.pop());
    }
    if part == "strangers" {
        if let Some(other) = last_of(stations_by(alloc, job, engine)?) {
            chosen.push(other)?;
        }
    }
    Ok(Some(chosen))
}

/// Writes what the stations answer that a line asks for, by so many workers; where the part is `meet`, each
/// site's first block waits for the other's.
fn put_crew<R: Threads + Wait + Clock + Sync>(
    threads: &R,
    rt: &HostRuntime,
    job: &Job,
    line: &str,
) -> io::Result<()> {
    let Some(stations) = chosen(rt.alloc(), job, line)? else {
        return println!(rt; "= item by item");
    };
    let part = word(line, 5);
    let gate = Barrier::new(part);
    let workers = u8::try_from(number(line, 4)).unwrap_or(u8::MAX).max(1);
    let outputs = run_crew(threads, rt.alloc(), stations, workers, &gate);
    put_outputs(rt, job, outputs)?;
    if part != "meet" || gate.was_met() {
        return Ok(());
    }
    println!(rt; "! the gate has failed")
}

/// The unused ends of a link of a job.
fn ends_of(alloc: Global, job: &Job, link: usize) -> Result<(Tx, Rx), AllocError>
    ensures sender { IfOk result (λ ends. IsUnusedSender job.now ends.0) }
    ensures receiver { IfOk result (λ ends. IsUnusedReceiver job.now ends.1) }
    ensures link { IfOk result (λ ends. ends.0.link ≡ link) }
{
    let capacity = job.plan().capacity();
    if capacity == 0 {
        return Err(AllocError);
    }
    let Ok(ends) = open_link(alloc, job, link, capacity) else {
        return Err(AllocError);
    };
    Ok(ends)
}

/// Two senders, in order.
fn both_senders(alloc: Global, job: &Job, first: Tx, second: Tx) -> Result<Vec<Tx>, AllocError>
    requires first { IsUnusedSender job.now first }
    requires second { IsUnusedSender job.now second }
    ensures { IfOk result (λ txs. (k : ℕ) (t : SenderView) → slice_get txs.items k ≡ Some t
        → IsUnusedSender job.now t) }
{
    job.recall_invariant();
    let mut txs = Vec::with_capacity(alloc, 2)?;
    txs.push_reserved(first);
    txs.push_reserved(second);
    Ok(txs)
}

/// Two receivers, in order.
fn both_receivers(alloc: Global, job: &Job, first: Rx, second: Rx) -> Result<Vec<Rx>, AllocError>
    requires first { IsUnusedReceiver job.now first }
    requires second { IsUnusedReceiver job.now second }
    ensures { IfOk result (λ rxs. (k : ℕ) (t : ReceiverView) → slice_get rxs.items k ≡ Some t
        → IsUnusedReceiver job.now t) }
{
    job.recall_invariant();
    let mut rxs = Vec::with_capacity(alloc, 2)?;
    rxs.push_reserved(first);
    rxs.push_reserved(second);
    Ok(rxs)
}

/// The station of a site over these ends.
fn station_of(
    alloc: Global,
    job: &Job,
    site: u8,
    txs: Vec<Tx>,
    rxs: Vec<Rx>,
) -> Result<Option<RowStation>, AllocError>
    requires site { site < sites_of job.now.plan }
    requires senders { (k : ℕ) (t : SenderView) → slice_get txs.items k ≡ Some t
        → IsUnusedSender job.now t }
    requires receivers { (k : ℕ) (t : ReceiverView) → slice_get rxs.items k ≡ Some t
        → IsUnusedReceiver job.now t }
{
    let instants = job.instants() as usize;
    let Some(code) = RowCode::new(alloc, job.plan(), site, instants)? else {
        return Ok(None);
    };
    let inputs = job.inputs_at(alloc, site)?;
    RowStation::new(alloc, code, inputs, txs, rxs)
}

/// The station of the first site, which sends over the first two links, and the receivers of these.
fn sending(alloc: Global, job: &Job) -> Result<Option<(RowStation, (Rx, Rx))>, AllocError>
    requires { 1 < sites_of job.now.plan }
{
    let (tx, rx) = ends_of(alloc, job, 0)?;
    let (other_tx, other_rx) = ends_of(alloc, job, 1)?;
    let txs = both_senders(alloc, job, tx, other_tx)?;
    match station_of(alloc, job, 0, txs, Vec::new(alloc))? {
        Some(station) => Ok(Some((station, (rx, other_rx)))),
        None => Ok(None),
    }
}

/// The station of the second site, which takes from the first two links, and the senders of these with their
/// lists.
fn receiving<'l>(
    alloc: Global,
    job: &Job,
    first: &'l [Msg],
    second: &'l [Msg],
) -> Result<Option<(RowStation, (Feeder<'l>, Feeder<'l>))>, AllocError>
    requires two { 1 < sites_of job.now.plan }
    requires first { first.now ≡ list_of job.now 0 }
    requires second { second.now ≡ list_of job.now 1 }
{
    let (tx, rx) = ends_of(alloc, job, 0)?;
    let (other_tx, other_rx) = ends_of(alloc, job, 1)?;
    let one = Feeder {
        tx,
        list: first,
        at: 0,
    };
    let two = Feeder {
        tx: other_tx,
        list: second,
        at: 0,
    };
    let rxs = both_receivers(alloc, job, rx, other_rx)?;
    match station_of(alloc, job, 1, Vec::new(alloc), rxs)? {
        Some(station) => Ok(Some((station, (one, two)))),
        None => Ok(None),
    }
}

/// Goes on until the station is over; a row for each output, where it has ended.
fn gone_on<R: Wait>(rt: &R, mut station: RowStation) -> Option<Vec<Vec<Status>>> {
    for _ in rt.forever() {
        match station.go() {
            Turn::Over => break,
            Turn::Moved | Turn::Blocked => thread::yield_now(),
        }
    }
    station.outputs()
}

/// Takes what is there, behind what was taken before. How many messages that is.
fn take_more(rx: &mut Rx, taken: &mut Vec<Msg>) -> usize {
    let room = taken.capacity() - taken.len();
    rx.poll_run(room, taken)
}

/// What comes from two links until their senders have left.
fn taken_from<R: Wait>(
    rt: &R,
    ends: (Rx, Rx),
    rooms: (Vec<Msg>, Vec<Msg>),
) -> (Vec<Msg>, Vec<Msg>) {
    let (mut first, mut second) = ends;
    let (mut one, mut two) = rooms;
    for _ in rt.forever() {
        let alone = first.gone() && second.gone();
        let some = take_more(&mut first, &mut one) != 0;
        let more = take_more(&mut second, &mut two) != 0;
        if alone && !some && !more {
            break;
        }
        thread::yield_now();
    }
    (one, two)
}

/// Feeds two links until all of their lists was put. False where that takes too many tries.
fn fed(feeders: (Feeder<'_>, Feeder<'_>)) -> bool {
    let (mut first, mut second) = feeders;
    for _ in 0..LOOKS {
        let some = first.offer_run() != 0;
        let more = second.offer_run() != 0;
        if first.is_done() && second.is_done() {
            return true;
        }
        if !some && !more {
            thread::yield_now();
        }
    }
    false
}

/// Writes an output by the number of its variable, where it has statuses.
fn put_row(rt: &HostRuntime, variable: usize, row: &[Status]) -> io::Result<()> {
    if row.is_empty() {
        return Ok(());
    }
    put_output(rt, variable, row)
}

/// Writes the outputs that a station has, of a row for each output of the program.
fn put_outputs_of(rt: &HostRuntime, flat: &Flat, rows: &[Vec<Status>]) -> io::Result<()> {
    let mut left = rows.iter();
    for (number, variable) in flat.variables().iter().enumerate() {
        if variable.role.is_output() {
            if let Some(row) = left.next() {
                put_row(rt, number, row)?;
            }
        }
    }
    Ok(())
}

/// Writes how a station stands, and the outputs that it has.
fn put_reported(rt: &HostRuntime, flat: &Flat, rows: &Option<Vec<Vec<Status>>>) -> io::Result<()> {
    let Some(rows) = rows else {
        return println!(rt; "= cut");
    };
    println!(rt; "= ended")?;
    put_outputs_of(rt, flat, rows)
}

/// Runs the station of the first site, and writes what it reports and what came from its two links.
fn put_sender<R: Threads + Wait + Sync>(threads: &R, rt: &HostRuntime, job: &Job) -> io::Result<()>
    requires { 1 < sites_of job.now.plan }
{
    let alloc = rt.alloc();
    let room = job.instants() as usize + 1;
    let rooms = (
        Vec::with_capacity(alloc, room)?,
        Vec::with_capacity(alloc, room)?,
    );
    let Some((station, ends)) = sending(alloc, job)? else {
        return println!(rt; "! no station");
    };
    let (rows, (first, second)) = thread::join(
        threads,
        move || gone_on(threads, station),
        move || taken_from(threads, ends, rooms),
    );
    put_reported(rt, job.plan().flat(), &rows)?;
    put_taken(rt, &first, first.len())?;
    put_taken(rt, &second, second.len())
}

/// Runs the station of the second site, fed with the lists of its two links, and writes what it reports.
fn put_receiver<R: Threads + Wait + Sync>(
    threads: &R,
    rt: &HostRuntime,
    job: &Job,
) -> io::Result<()>
    requires { 1 < sites_of job.now.plan }
{
    let (first, second) = lists_of(rt.alloc(), job)?;
    let Some((station, feeders)) = receiving(rt.alloc(), job, &first, &second)? else {
        return println!(rt; "! no station");
    };
    let (rows, all) = thread::join(
        threads,
        move || gone_on(threads, station),
        move || fed(feeders),
    );
    put_reported(rt, job.plan().flat(), &rows)?;
    println!(rt;
        "{}",
        if all {
            "= all was put"
        } else {
            "! not all was put"
        }
    )
}

/// Runs the sites of a job that a line asks for in blocks or once an instant, and writes what comes of them.
pub fn put_rows<R: Threads + Wait + Clock + Sync>(
    threads: &R,
    rt: &HostRuntime,
    job: &Job,
    line: &str,
) -> io::Result<()> {
    if job.plan().sites().len() < 2 {
        return println!(rt; "! too few sites");
    }
    match word(line, 5) {
        "sender" => put_sender(threads, rt, job),
        "receiver" => put_receiver(threads, rt, job),
        _ => put_crew(threads, rt, job, line),
    }
}

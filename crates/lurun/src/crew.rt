//! A few workers for all stations.

ghost use Rattle.std.specs.Prelude.{◌≡◌, ◌≤◌, ◌<◌, ◌+◌, ◌++◌, ◌∷◌, ◌⊎◌, true, IfOk, IfErr, OnOk, All, [], filter, length, map, vec_len, vec_capacity};
ghost use Rattle.std.specs.List.Sorted.{IsPermutation};
ghost use Rattle.lurun.specs.declared.error.RunError.TheVariants.{NoThread, OutOfMemory};
ghost use Rattle.lurun.specs.Stations.{AreReportsOf};
ghost use Rattle.lurun.specs.Crew.{AreDealt, AreShares, IsDealtTo, IsNewShare, dealt, has_station, held};
ghost use Rattle.lurun.specs.Shares.{promised};

use crate::error::RunError;
use crate::gate::Gate;
use crate::report::Report;
use crate::served::{Served, Share, serve, served_of};
use crate::station::Station;
use std::alloc::{AllocError, Global};
use std::rt::Clock;
use std::snapshot::Snapshot;
use std::sync::Wait;
use std::thread;
use std::thread::{Promise, PromisedHandle, Scope, Threads};

/// A worker's promise: its reports are of its stations.
#[derive(Drop)]
pub struct ReportsOf(Snapshot<Vec<Served>>);

impl Promise<Vec<Report>> for ReportsOf {
    ghost use Rattle.lurun.specs.Stations.{AreReportsOf};

    ghost kept_by = { λ p r. AreReportsOf p.0.value.items r.items };
}

type Worker = PromisedHandle<Vec<Report>, ReportsOf>;

/// Starts a worker. An error where the thread is refused: its stations are dropped then, and so their ends
/// are left.
fn start<'s, E, R: Wait + Clock + Sync, G: Gate>(
    scope: &Scope<'s, E>,
    rt: &'s R,
    share: Share,
    gate: &'s G,
) -> Result<Worker, RunError>
    requires { IsNewShare share }
    ensures { IfOk result (λ h. h.promise.0.value ≡ share.served) }
{
    let promise = ReportsOf(Snapshot::of(&share.served));
    scope
        .spawn_with(
            promise,
            move || -> Vec<Report>
                requires { IsNewShare share }
                ensures { AreReportsOf share.served.items result.items }
            { serve(rt, share, gate) },
        )
        .ok()
        .ok_or(RunError::NoThread)
}

fn deal_to(shares: &mut Vec<Vec<Served>>, to: usize, served: Served) -> Result<(), AllocError>
    requires { to < vec_len shares.old }
    ensures one { OnOk result
        (IsPermutation (served ∷ dealt shares.old.items) (dealt shares.new.items)) }
    ensures to { OnOk result (IsDealtTo shares.old.items to served shares.new.items) }
    ensures len { vec_len shares.new ≡ vec_len shares.old }
{
    let share = &mut shares[to];
    share.push(served)?;
    Ok(())
}

/// So many empty shares.
fn no_shares(alloc: Global, count: usize) -> Result<Vec<Vec<Served>>, AllocError>
    ensures none { IfOk result (λ shares. length (dealt shares.items) ≡ 0) }
    ensures empty { IfOk result (λ shares. All (λ s. s.items ≡ []) shares.items) }
    ensures len { IfOk result (λ shares. vec_len shares ≡ count) }
{
    let mut shares = Vec::with_capacity(alloc, count)?;
    for _ in 0..count {
        shares.push_reserved(Vec::new(alloc));
    }
    Ok(shares)
}

/// The stations of each worker: worker i has the sites whose number leaves i, divided by the number of
/// workers.
fn deal(alloc: Global, stations: Vec<Station>, workers: u8) -> Result<Vec<Vec<Served>>, AllocError>
    requires { 0 < workers }
    ensures all { IfOk result (λ shares. IsPermutation stations.items (dealt shares.items)) }
    ensures each { IfOk result (λ shares. AreDealt workers shares.items) }
    ensures count { IfOk result (λ shares. length shares.items ≡ workers) }
{
    let count = usize::from(workers);
    let mut shares = no_shares(alloc, count)?;
    for station in stations {
        let served = served_of(station);
        let to = usize::from(served.number()) % count;
        deal_to(&mut shares, to, served)?;
    }
    Ok(shares)
}

fn new_share(alloc: Global, served: Vec<Served>) -> Result<Share, AllocError>
    ensures served { IfOk result (λ share. share.served ≡ served) }
    ensures new { IfOk result IsNewShare }
{
    let reports = Vec::with_capacity(alloc, served.len())?;
    Ok(Share { served, reports })
}

/// The shares that have a station, with room for its report.
fn new_shares(alloc: Global, shares: Vec<Vec<Served>>) -> Result<Vec<Share>, AllocError>
    ensures all { IfOk result (λ started. held started.items ≡ dealt shares.items) }
    ensures each { IfOk result (λ started. map (λ h. h.served) started.items
        ≡ filter has_station shares.items) }
    ensures new { IfOk result (λ started. All IsNewShare started.items) }
{
    let mut started = Vec::with_capacity(alloc, shares.len())?;
    for served in shares {
        if !served.is_empty() {
            started.push_reserved(new_share(alloc, served)?);
        }
    }
    Ok(started)
}

/// The shares of the workers that have a station.
fn shares_for(alloc: Global, stations: Vec<Station>, workers: u8) -> Result<Vec<Share>, AllocError>
    requires { 0 < workers }
    ensures all { IfOk result (λ started. IsPermutation stations.items (held started.items)) }
    ensures count { IfOk result (λ started. length (held started.items) ≤ vec_len stations) }
    ensures each { IfOk result (λ started. AreShares workers started.items) }
    ensures new { IfOk result (λ started. All IsNewShare started.items) }
{
    let shares = deal(alloc, stations, workers)?;
    new_shares(alloc, shares)
}

/// Starts a worker for each share, up to the first that is refused: false there, and the shares that are left
/// are dropped.
fn start_all<'s, E, R: Wait + Clock + Sync, G: Gate>(
    scope: &Scope<'s, E>,
    rt: &'s R,
    started: Vec<Share>,
    gate: &'s G,
    mut workers: Vec<Worker>,
) -> (Vec<Worker>, bool)
    requires room { vec_len started ≤ vec_capacity workers }
    requires none { vec_len workers ≡ 0 }
    requires new { All IsNewShare started.items }
    ensures all { result.1 ≡ true → promised result.0.items ≡ held started.items }
    ensures count { length (promised result.0.items) ≤ length (held started.items) }
{
    for share in started {
        match start(scope, rt, share, gate) {
            Ok(worker) => workers.push_reserved(worker),
            Err(_) => return (workers, false),
        }
    }
    (workers, true)
}

/// Moves reports behind those that are there already.
fn gather(all: &mut Vec<Report>, reports: Vec<Report>)
    requires { vec_len all.old + vec_len reports ≤ vec_capacity all.old }
    ensures items { all.new.items ≡ all.old.items ++ reports.items }
    ensures room { vec_capacity all.new ≡ vec_capacity all.old }
{
    for report in reports {
        all.push_reserved(report);
    }
}

fn join_all<R: Threads>(rt: &R, workers: Vec<Worker>, mut all: Vec<Report>) -> Vec<Report>
    requires room { length (promised workers.items) ≤ vec_capacity all }
    requires none { vec_len all ≡ 0 }
    ensures { AreReportsOf (promised workers.items) result.items }
{
    for worker in workers {
        gather(&mut all, worker.join(rt));
    }
    all
}

/// The reports of stations that a crew serves. One is missing where its site didn't end.
///
/// # Errors
///
/// [`RunError::NoThread`] where a thread was refused, whatever the others report; [`RunError::OutOfMemory`]
/// where there is no room for all shares, workers and reports, and then none was started.
pub fn reports_of<R: Threads + Wait + Clock + Sync, G: Gate>(
    rt: &R,
    alloc: Global,
    stations: Vec<Station>,
    workers: u8,
    gate: &G,
) -> Result<Vec<Report>, RunError>
    requires { 0 < workers }
    ensures reports { IfOk result (λ reports. AreReportsOf stations.items reports.items) }
    ensures none { IfErr result (λ error. (error ≡ OutOfMemory) ⊎ (error ≡ NoThread)) }
{
    let reports = Vec::with_capacity(alloc, stations.len())?;
    let started = shares_for(alloc, stations, workers)?;
    let children = Vec::with_capacity(alloc, started.len())?;
    let (reports, all) = thread::scope(
        thread::scope_env(),
        rt,
        |scope| -> (Vec<Report>, bool)
            requires room { (vec_len started ≤ vec_capacity children) × (vec_len children ≡ 0)
                × All IsNewShare started.items }
            requires reports { (length (held started.items) ≤ vec_capacity reports)
                × (vec_len reports ≡ 0) }
            ensures { result.1 ≡ true → AreReportsOf (held started.items) result.0.items }
        {
            let (children, all) = start_all(scope, rt, started, gate, children);
            (join_all(rt, children, reports), all)
        },
    );
    if !all {
        return Err(RunError::NoThread);
    }
    Ok(reports)
}

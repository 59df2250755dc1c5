//! The stations of a job.

ghost use Rattle.std.specs.Prelude.{◌≡◌, ◌<◌, ◌+◌, IfOk, IfSome, IsSome};
ghost use Rattle.luworld.specs.Needs.{sites_of};
ghost use Rattle.lurun.specs.declared.engine.Engine.TheVariants as engines;
ghost use Rattle.lurun.specs.Ends.{AreUnusedEnds};
ghost use Rattle.lurun.specs.Reports.{AreComplete};
ghost use Rattle.lurun.specs.Stations.{AreOf, AreStations, sites_at};

use crate::engine::Engine;
use crate::opening::{Ends, ends_of};
use crate::station::{Going, Station};
use crate::whole::whole_of;
use lublock_site::{RowCode, RowStation};
use lulist::{ListCode, ListStation};
use luplace::Job;
use lusite::{Site, project};
use std::alloc::{AllocError, Global};
use std::snapshot::Snapshot;

/// The station of a site that goes item by item, with these ends.
fn item_station(alloc: Global, job: &Job, site: u8, ends: Ends) -> Result<Station, AllocError>
    requires site { site < sites_of job.now.plan }
    requires ends { AreUnusedEnds job.now site ends.txs.items ends.rxs.items }
    ensures { IfOk result (λ x. x ≡ record {
      job = job.now;
      site = site;
      engine = engines.Items;
      txs = ends.txs.items;
      rxs = ends.rxs.items;
    }) }
{
    let inputs = job.inputs_at(alloc, site)?;
    let program = project(alloc, job.plan(), site)?;
    let machine = Site::new(alloc, program, inputs)?;
    let Ends { txs, rxs } = ends;
    Ok(Station::new(machine, txs, rxs))
}

/// The station of a site that works in blocks of instants, with these ends. None where it can't.
fn row_station(
    alloc: Global,
    job: &Job,
    site: u8,
    ends: Ends,
) -> Result<Option<Station>, AllocError>
    requires site { site < sites_of job.now.plan }
    requires ends { AreUnusedEnds job.now site ends.txs.items ends.rxs.items }
    ensures { IfOk result (λ o. IfSome o (λ x. x ≡ record {
      job = job.now;
      site = site;
      engine = engines.Rows;
      txs = ends.txs.items;
      rxs = ends.rxs.items;
    })) }
{
    let Some(code) = RowCode::new(alloc, job.plan(), site, job.instants() as usize)? else {
        return Ok(None);
    };
    let whole = whole_of(alloc, job, site)?;
    let inputs = job.inputs_at(alloc, site)?;
    let Ends { txs, rxs } = ends;
    let sent = Snapshot::of(&txs);
    let taken = Snapshot::of(&rxs);
    match RowStation::new(alloc, code, inputs, txs, rxs)? {
        Some(station) => Ok(Some(Station::of(Going::Rows(station, whole), sent, taken))),
        None => Ok(None),
    }
}

/// The station of a site that goes through its flows once an instant, with these ends. None where it can't.
fn list_station(
    alloc: Global,
    job: &Job,
    site: u8,
    ends: Ends,
) -> Result<Option<Station>, AllocError>
    requires site { site < sites_of job.now.plan }
    requires ends { AreUnusedEnds job.now site ends.txs.items ends.rxs.items }
    ensures { IfOk result (λ o. IfSome o (λ x. x ≡ record {
      job = job.now;
      site = site;
      engine = engines.Lists;
      txs = ends.txs.items;
      rxs = ends.rxs.items;
    })) }
{
    let Some(code) = ListCode::new(alloc, job.plan(), site)? else {
        return Ok(None);
    };
    let whole = whole_of(alloc, job, site)?;
    let inputs = job.inputs_at(alloc, site)?;
    let Ends { txs, rxs } = ends;
    let sent = Snapshot::of(&txs);
    let taken = Snapshot::of(&rxs);
    match ListStation::new(alloc, code, inputs, txs, rxs)? {
        Some(station) => Ok(Some(Station::of(Going::Lists(station, whole), sent, taken))),
        None => Ok(None),
    }
}

/// The station of a site that goes on like this, with these ends. None where it can't.
fn station_of(
    alloc: Global,
    job: &Job,
    site: u8,
    engine: Engine,
    ends: Ends,
) -> Result<Option<Station>, AllocError>
    requires site { site < sites_of job.now.plan }
    requires ends { AreUnusedEnds job.now site ends.txs.items ends.rxs.items }
    ensures is { IfOk result (λ o. IfSome o (λ x. x ≡ record {
      job = job.now;
      site = site;
      engine = engine;
      txs = ends.txs.items;
      rxs = ends.rxs.items;
    })) }
    ensures items { IfOk result (λ o. engine ≡ engines.Items → IsSome o) }
{
    match engine {
        Engine::Rows => row_station(alloc, job, site, ends),
        Engine::Lists => list_station(alloc, job, site, ends),
        Engine::Items => Ok(Some(item_station(alloc, job, site, ends)?)),
    }
}

/// The stations of a job whose sites go on like this, in order of sites: all links are open, with the plan's
/// capacity, and each end is at its site. None where one of the sites can't go on so; each site can go item
/// by item.
///
/// # Errors
///
/// An error means that memory ran out. Nothing is left then.
pub fn stations_by(
    alloc: Global,
    job: &Job,
    engine: Engine,
) -> Result<Option<Vec<Station>>, AllocError>
    ensures new { IfOk result
        (λ o. IfSome o (λ stations. AreStations job.now engine stations.items)) }
    ensures items { IfOk result (λ o. engine ≡ engines.Items → IsSome o) }
{
    let all = ends_of(alloc, job)?;
    let mut stations = Vec::with_capacity(alloc, all.len())?;
    let mut site = 0u8;
    for ends in all {
        let Some(station) = station_of(alloc, job, site, engine, ends)? else {
            return Ok(None);
        };
        stations.push_reserved(station);
        site += 1;
    }
    Ok(Some(stations))
}

/// The stations of a job whose sites go item by item, in order of sites: all links, with the plan's capacity,
/// and all sites, new.
///
/// # Errors
///
/// An error means that memory ran out. Nothing is left then.
pub fn stations(alloc: Global, job: &Job) -> Result<Vec<Station>, AllocError>
    ensures new { IfOk result (λ stations. AreStations job.now engines.Items stations.items) }
    ensures of { IfOk result (λ stations. AreOf job.now stations.items) }
    ensures complete { IfOk result (λ stations. AreComplete job.now (sites_at stations.items)) }
{
    job.recall_invariant();
    match stations_by(alloc, job, Engine::Items)? {
        Some(stations) => Ok(stations),
        None => unreachable!(),
    }
}

//! The world after a schedule: how many items of its script each site has done. All puts and takes are
//! counted anew at each turn.

ghost use Rattle.std.specs.Prelude.{◌≡◌, ◌+◌, IfOk, Some, count_by, nat_lt, slice_set, take};
ghost use Rattle.luworld.specs.Needs.{sites_of};
ghost use Rattle.luworld.specs.Jobs.{IsJobView, system_of};
ghost use Rattle.luworld.specs.Systems.{done, moved_if, put_count, puts, reached, step, taken_count, takes, turn_at};
ghost use Rattle.test_reference.specs.AsItem.{as_item};
ghost use Rattle.test_reference.specs.Scripts.{AreScripts, script_in};

use crate::item::Item;
use crate::plans::{carried, receiver_of};
use crate::scripts::{is_take, script_of};
use lubase::Row;
use luplace::Job;
use luworld::Turn;
use std::alloc::{AllocError, Global};

fn script_in(scripts: &[Row<Item>], site: usize) -> &[Item]
    ensures { result.now ≡ script_in scripts.now site }
{
    match scripts.get(site) {
        Some(script) => script.as_slice(),
        None => &[],
    }
}

/// The scripts of all sites, in order.
pub fn scripts_of(alloc: Global, job: &Job) -> Result<Vec<Row<Item>>, AllocError>
    ensures { IfOk result (λ scripts. AreScripts job.now scripts.items) }
{
    let mut scripts = Vec::new(alloc);
    for site in 0..sites_of(job) {
        let script = script_of(alloc, job, site)?;
        scripts.push(Row::new(script))?;
    }
    Ok(scripts)
}

/// The number of the sites.
fn sites_of(job: &Job) -> u8
    ensures sites { result ≡ sites_of job.now.plan }
    ensures run { IsJobView job.now }
{
    let _flat = job.plan().flat();
    job.plan().sites().len() as u8
}

/// How many items of its script a site has done.
fn done(world: &[usize], site: usize) -> usize
    ensures { result ≡ done world.now site }
{
    match world.get(site) {
        Some(count) => *count,
        None => 0,
    }
}

fn is_put(link: usize, item: Item) -> bool
    ensures { result ≡ puts link (as_item item) }
{
    match item {
        Item::Compute { .. } => false,
        Item::Put { link: other } => other == link,
        Item::Take { .. } => false,
    }
}

fn puts_in(items: &[Item], count: usize, link: usize) -> usize
    ensures { result ≡ count_by (λ item. puts link (as_item item)) (take count items.now) }
{
    items
        .iter()
        .take(count)
        .filter(|item| is_put(link, **item))
        .count()
}

fn takes_in(items: &[Item], count: usize, link: usize) -> usize
    ensures { result ≡ count_by (λ item. takes link (as_item item)) (take count items.now) }
{
    items
        .iter()
        .take(count)
        .filter(|item| is_take(link, **item))
        .count()
}

/// How many messages of a link were put.
fn put_count(job: &Job, scripts: &[Row<Item>], world: &[usize], link: usize) -> usize
    requires { AreScripts job.now scripts.now }
    ensures { result ≡ put_count (system_of job.now) world.now link }
{
    let sender = usize::from(job.plan().home(carried(job.plan(), link)));
    puts_in(script_in(scripts, sender), done(world, sender), link)
}

/// How many messages of a link were taken.
fn taken_count(job: &Job, scripts: &[Row<Item>], world: &[usize], link: usize) -> usize
    requires { AreScripts job.now scripts.now }
    ensures { result ≡ taken_count (system_of job.now) world.now link }
{
    let receiver = usize::from(receiver_of(job.plan(), link));
    takes_in(script_in(scripts, receiver), done(world, receiver), link)
}

fn has_room(puts: usize, takes: usize, capacity: u16) -> bool
    ensures { result ≡ nat_lt puts (takes + capacity) }
{
    let capacity = usize::from(capacity);
    puts < capacity || puts - capacity < takes
}

fn moved_if(b: bool) -> Turn
    ensures { result ≡ moved_if b }
{
    if b { Turn::Moved } else { Turn::Blocked }
}

/// What a turn of a site does whose next item is this.
fn turn_at(job: &Job, scripts: &[Row<Item>], world: &[usize], item: Item) -> Turn
    requires { AreScripts job.now scripts.now }
    ensures { result ≡ turn_at (system_of job.now) world.now (Some (as_item item)) }
{
    match item {
        Item::Compute { .. } => Turn::Moved,
        Item::Put { link } => moved_if(has_room(
            put_count(job, scripts, world, link),
            taken_count(job, scripts, world, link),
            job.plan().capacity(),
        )),
        Item::Take { link } => moved_if(
            taken_count(job, scripts, world, link) < put_count(job, scripts, world, link),
        ),
    }
}

fn set_done(world: &mut Vec<usize>, site: usize, count: usize)
    ensures { world.new.items ≡ slice_set world.old.items site count }
{
    if site < world.len() {
        world[site] = count;
    }
}

/// A turn of a site.
fn step(job: &Job, scripts: &[Row<Item>], world: &mut Vec<usize>, site: usize)
    requires { AreScripts job.now scripts.now }
    ensures { world.new.items ≡ step (system_of job.now) world.old.items site }
{
    let script = script_in(scripts, site);
    let place = done(world, site);
    if place < script.len() {
        match turn_at(job, scripts, world, script[place]) {
            Turn::Moved => set_done(world, site, place + 1),
            Turn::Blocked => {}
            Turn::Over => {}
        }
    }
}

/// How many items of its script each site has done after the turns of a schedule, where the scripts are
/// given.
pub fn world_by(
    alloc: Global,
    job: &Job,
    scripts: &[Row<Item>],
    turns: &[u8],
) -> Result<Vec<usize>, AllocError>
    requires { AreScripts job.now scripts.now }
    ensures { IfOk result (λ world. world.items ≡ reached (system_of job.now) turns.now) }
{
    let mut world = vec![in alloc; 0; job.plan().sites().len()]?;
    for site in turns {
        step(job, scripts, &mut world, usize::from(*site));
    }
    Ok(world)
}

/// How many items of its script each site has done after the turns of a schedule, one site after the other.
pub fn world_after(alloc: Global, job: &Job, turns: &[u8]) -> Result<Vec<usize>, AllocError>
    ensures { IfOk result (λ world. world.items ≡ reached (system_of job.now) turns.now) }
{
    let scripts = scripts_of(alloc, job)?;
    world_by(alloc, job, scripts.as_slice(), turns)
}

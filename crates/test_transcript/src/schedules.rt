//! All schedules of eight turns, against the plain programs beside the definitions.

ghost use Rattle.std.specs.Prelude.{◌≡◌};
ghost use Rattle.test_reference.specs.Scripts.{AreScripts};

use crate::jobs::job_of_texts;
use lubase::Row;
use luflow::{Msg, Status};
use luplace::Job;
use lusdist_answers::{CallError, replayed};
use luweave::World;
use std::alloc::{AllocError, Global};
use test_reference::{Item, Mark, Marks, list_of_link, marks_of, scripts_of, world_by};

/// Three counters in a ring.
const RING: &str =
    "node main() returns (a: int; b: int; c: int); let a = 0 -> pre c + 1; b = 0 -> pre a + 1; c = 0 -> pre b + 1; tel";

const THREE_SITES: &str =
    "sites = [\"A\", \"B\", \"C\"]\ncapacity = 1\n[place]\na = \"A\"\nb = \"B\"\nc = \"C\"\n";

/// These turns, and eight more: the digits of the number to the base 3.
fn schedule(alloc: Global, first: &[u8], number: u32) -> Result<Vec<u8>, AllocError> {
    let mut turns = Vec::from_slice(alloc, first)?;
    let mut rest = number;
    for _ in 0..8 {
        turns.push((rest % 3) as u8)?;
        rest /= 3;
    }
    Ok(turns)
}

/// What the plain programs say of a job.
#[derive(Drop)]
struct Plain {
    lists: Vec<Vec<Msg>>,
    marks: Vec<Marks>,
}

/// The list of each link.
fn lists_of(alloc: Global, job: &Job) -> Result<Vec<Vec<Msg>>, AllocError> {
    let mut lists = Vec::new(alloc);
    for link in 0..job.plan().links().len() {
        lists.push(list_of_link(alloc, job, link)?)?;
    }
    Ok(lists)
}

fn plain_of(alloc: Global, job: &Job) -> Result<Plain, AllocError> {
    let lists = lists_of(alloc, job)?;
    let marks = marks_of(alloc, job.plan().flat(), job.inputs(), job.instants())?;
    Ok(Plain { lists, marks })
}

/// How often an item is among those that a site has done.
fn times(scripts: &[Row<Item>], site: u8, dones: &[usize], item: Item) -> usize {
    let site = usize::from(site);
    match (scripts.get(site), dones.get(site)) {
        (Some(script), Some(done)) => script
            .as_slice()
            .iter()
            .take(*done)
            .filter(|other| **other == item)
            .count(),
        _ => 0,
    }
}

/// Whether the taken and then the waiting messages are the list's first ones, as many as were put.
fn are_first(list: &[Msg], taken: &[Msg], queued: &[Msg], puts: usize, takes: usize) -> bool {
    if takes <= puts && puts <= list.len() {
        taken == &list[..takes] && queued == &list[takes..puts]
    } else {
        false
    }
}

/// Whether each link of the replayed world carries what the plain programs say.
fn links_agree(
    job: &Job,
    plain: &Plain,
    scripts: &[Row<Item>],
    world: &World,
    dones: &[usize],
) -> bool
    requires { world.now.job ≡ job.now }
{
    for (number, link) in job.plan().links().iter().enumerate() {
        let puts = times(scripts, link.from, dones, Item::Put { link: number });
        let takes = times(scripts, link.to, dones, Item::Take { link: number });
        let taken = world.taken(number);
        let queued = world.queued(number);
        match plain.lists.get(number) {
            Some(list) if are_first(list, taken, queued, puts, takes) => {}
            _ => return false,
        }
    }
    true
}

fn is_mark(mark: &Mark, status: &Status) -> bool {
    *mark == Mark::Known(*status)
}

/// Whether the statuses are the first marks.
fn begin(marks: &Marks, statuses: &[Status]) -> bool {
    statuses.len() <= marks.as_slice().len()
        && marks
            .as_slice()
            .iter()
            .zip(statuses.iter())
            .all(|(mark, status)| is_mark(mark, status))
}

/// Whether the outputs, which are all variables here, are what the plain programs say.
fn outputs_agree(plain: &Plain, world: &World) -> bool {
    for k in 0..3 {
        match plain.marks.get(k) {
            Some(marks) if begin(marks, world.outputs(k)) => {}
            _ => return false,
        }
    }
    true
}

/// Whether a world that these turns made is the plain one.
fn world_agrees(
    alloc: Global,
    job: &Job,
    plain: &Plain,
    scripts: &[Row<Item>],
    turns: &[u8],
    world: &World,
) -> Result<bool, CallError>
    requires scripts { AreScripts job.now scripts.now }
    requires world { world.now.job ≡ job.now }
{
    let dones = world_by(alloc, job, scripts, turns)?;
    Ok(links_agree(job, plain, scripts, world, &dones) && outputs_agree(plain, world))
}

/// Whether the world after these turns is the plain one.
fn agrees(
    alloc: Global,
    job: &Job,
    plain: &Plain,
    scripts: &[Row<Item>],
    turns: &[u8],
) -> Result<bool, CallError>
    requires { AreScripts job.now scripts.now }
{
    let world = replayed(alloc, job, turns, false)?;
    world_agrees(alloc, job, plain, scripts, turns, &world)
}

/// Whether the world after these turns and each eight more is the plain one.
fn all_agree_after(
    alloc: Global,
    job: &Job,
    plain: &Plain,
    scripts: &[Row<Item>],
    first: &[u8],
) -> Result<bool, CallError>
    requires { AreScripts job.now scripts.now }
{
    for number in 0..6_561 {
        let turns = schedule(alloc, first, number)?;
        if !agrees(alloc, job, plain, scripts, &turns)? {
            return Ok(false);
        }
    }
    Ok(true)
}

/// Turns to begin with: none, or those of the first messages.
const FIRST: &[&[u8]] = &[&[], &[0, 0, 0, 0, 0, 1, 1, 1, 1, 1, 2, 2, 2, 2, 2]];

/// Whether all agree behind each of these prefixes of a schedule.
fn all_agree(
    alloc: Global,
    job: &Job,
    plain: &Plain,
    scripts: &[Row<Item>],
) -> Result<bool, CallError>
    requires { AreScripts job.now scripts.now }
{
    for first in FIRST {
        if !all_agree_after(alloc, job, plain, scripts, first)? {
            return Ok(false);
        }
    }
    Ok(true)
}

/// Whether all agree, by the scripts of a job.
fn all_agree_by(alloc: Global, job: &Job, plain: &Plain) -> Result<bool, CallError> {
    let scripts = scripts_of(alloc, job)?;
    all_agree(alloc, job, plain, &scripts)
}

/// Whether all agree, of a job.
fn all_agree_of(alloc: Global, job: &Job) -> Result<bool, CallError> {
    let plain = plain_of(alloc, job)?;
    all_agree_by(alloc, job, &plain)
}

/// Whether all agree, of a ring of three sites.
pub fn all_agree_in_ring(alloc: Global) -> bool {
    match job_of_texts(alloc, RING, THREE_SITES, "\n\n\n") {
        Some(job) => all_agree_of(alloc, &job).unwrap_or(false),
        None => false,
    }
}

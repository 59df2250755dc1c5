//! All sites in one thread, by turns.
#![tactic(auto, using(std::proofs::lemmas::Grind::elements))]

ghost use Rattle.std.specs.Prelude.{◌≡◌, ℕ, ◌++◌, true, [], ◌+◌, ◌<◌, ◌≤◌, length, take, drop, slice_get, slice_set, slice_index, vec_capacity, List, Some, None, IfOk};
ghost use Rattle.std.specs.Option.{ForSome};
ghost use Rattle.lusite.specs.Machine.{IsLocalNext, IsPutNext, IsTakeNext};
ghost use Rattle.lusite.specs.Sites.{SiteView};
ghost use Rattle.luweave.specs.declared.link_queue.LinkQueue.{LinkQueue};
ghost use Rattle.luworld.specs.Jobs.{link_list, streams_of};
ghost use Rattle.luworld.specs.Systems.{done, turn, step, reached, moved_turns, put_count, taken_count, new_world};
ghost use Rattle.luworld.specs.Jobs.{system_of, IsJob};
ghost use Rattle.luweave.specs.Worlds.{more, IsPutInto, IsTakeFrom, IsNewWorld, IsNewLinkQueue, IsUnstuck, IsOnlyEnd, IsDone, IsReportedAtSome};
ghost use Rattle.luworld.specs.WorldViews.{IsCollected, IsPrefixOf, AllEnded, list_of_link, taken_of, queued_of};
ghost use Rattle.lusource.specs.Source.{SourceStreams};
ghost use Rattle.lusource.specs.RunSources.{IsMeant, NoneBreaks, source_list};
ghost use Rattle.luweave.specs.Schedules.{IsWithinReach, AreWholeScripts, IsMoveCount};
ghost use Rattle.luweave.specs.Headline.{InEachSource, WaitsNext, IsCollectedOf, IsFaithful};
ghost use Rattle.lusite.specs.Logs.{IsOutput};
ghost use Rattle.luworld.specs.Jobs.{NoFault, outputs_of};

use crate::link_queue::LinkQueue;
use crate::offers::{has_room, has_some, next_of};
use luflow::{Msg, Status};
use luplace::Plan;
use lusite::{LinkNo, Next, Site};
use luworld::Turn;
use std::alloc::{AllocError, Global};
use std::marker::Model;
use std::snapshot::Snapshot;

/// All sites of a job and the links between them, in one thread. A contract sees the job, and how many items
/// of its script each site has done.
pub struct World {
    pub(crate) sites: Vec<Site>,
    pub(crate) link_queues: Vec<LinkQueue>,
    pub(crate) capacity: usize,
    first: Snapshot<Site>,
}

// By hand, so that it is proved here alone, and not in each crate that owns one.
impl Drop for World {
    fn drop(self) {
        let Self {
            sites: _,
            link_queues: _,
            capacity: _,
            first: _,
        } = self;
    }
}

impl Model for World {
    ghost use Rattle.luweave.specs.Worlds.{dones_of, IsWorld};
    ghost use Rattle.luworld.specs.WorldViews.{WorldView};

    ghost Value = { WorldView };

    ghost view = { λ a. record { job = a.first.value.job; dones = dones_of a.sites.items } };

    ghost invariant = { λ a. IsWorld a.first.value.job a.sites.items a.link_queues.items a.capacity };
}

#[inline(always)]
fn work_at(sites: &mut Vec<Site>, s: usize)
    requires within { s < length sites.old.items }
    requires next { ForSome (slice_get sites.old.items s) (λ v. IsLocalNext v.job v.site v.done) }
    ensures { ForSome (slice_get sites.old.items s) (λ v. sites.new.items
        ≡ slice_set sites.old.items s (more v)) }
{
    let site = &mut sites[s];
    site.work();
}

fn sent_at(sites: &mut Vec<Site>, s: usize)
    requires within { s < length sites.old.items }
    requires next { ForSome (slice_get sites.old.items s) (λ v. IsPutNext v.job v.site v.done) }
    ensures { ForSome (slice_get sites.old.items s) (λ v. sites.new.items
        ≡ slice_set sites.old.items s (more v)) }
{
    let site = &mut sites[s];
    site.sent();
}

fn given_at(sites: &mut Vec<Site>, s: usize, msg: Msg)
    requires within { s < length sites.old.items }
    requires next { ForSome (slice_get sites.old.items s)
        (λ v. IsTakeNext v.job v.site v.done msg) }
    ensures { ForSome (slice_get sites.old.items s) (λ v. sites.new.items
        ≡ slice_set sites.old.items s (more v)) }
{
    let site = &mut sites[s];
    site.given(msg);
}

fn put_at(link_queues: &mut Vec<LinkQueue>, l: usize, msg: Msg)
    requires within { l < length link_queues.old.items }
    requires room { ForSome (slice_get link_queues.old.items l)
        (λ x. length x.put.items < vec_capacity x.put) }
    ensures { ForSome (slice_get link_queues.old.items l) (λ x. IsPutInto link_queues.old.items l x msg
        link_queues.new.items) }
{
    let link_queue = &mut link_queues[l];
    link_queue.put(msg);
}

fn take_at(link_queues: &mut Vec<LinkQueue>, l: usize) -> Msg
    requires within { l < length link_queues.old.items }
    requires some { ForSome (slice_get link_queues.old.items l) (λ x. x.taken < length x.put.items) }
    ensures { ForSome (slice_get link_queues.old.items l) (λ x. IsTakeFrom link_queues.old.items l x result
        link_queues.new.items) }
{
    let link_queue = &mut link_queues[l];
    link_queue.take()
}

impl World {
    /// One turn of a site: a computation, a put or a take. Blocked where the next item is a put into a full
    /// link or a take from an empty one; Over where the site has ended or faulted, or the number is no
    /// site's; both change nothing. A computation that faults is Moved. Takes no memory.
    pub fn turn(&mut self, site: u8) -> Turn
        ensures turn { result ≡ turn (system_of self.old.job) self.old.dones site }
        ensures job { self.new.job ≡ self.old.job }
        ensures dones { self.new.dones ≡ step (system_of self.old.job) self.old.dones site }
    {
        let s = site as usize;
        if s >= self.sites.len() {
            return Turn::Over;
        }
        match next_of(&self.sites, s) {
            Next::Local => {
                work_at(&mut self.sites, s);
                Turn::Moved
            }
            Next::Put(l, msg) => {
                if !has_room(&self.link_queues, l, self.capacity) {
                    return Turn::Blocked;
                }
                put_at(&mut self.link_queues, l, msg);
                sent_at(&mut self.sites, s);
                Turn::Moved
            }
            Next::Take(l) => {
                if !has_some(&self.link_queues, l) {
                    return Turn::Blocked;
                }
                let msg = take_at(&mut self.link_queues, l);
                given_at(&mut self.sites, s, msg);
                Turn::Moved
            }
            Next::Ended => Turn::Over,
            Next::Faulted => Turn::Over,
        }
    }
}

impl World {
    /// What was taken from a link: a prefix of its list, also as the source says it, and the whole list where
    /// all sites have ended. Takes no memory.
    pub fn taken(&self, link: LinkNo) -> &[Msg]
        requires { link < length self.now.job.plan.links }
        ensures exact { result.now ≡ taken_of self.now link }
        ensures begins { IsPrefixOf result.now (list_of_link self.now link) }
        ensures whole { AllEnded self.now.job self.now.dones → result.now
            ≡ list_of_link self.now link }
        ensures source { InEachSource self.now.job
            (λ σ. IsPrefixOf result.now (source_list self.now.job σ link)) }
        ensures source_whole { InEachSource self.now.job
            (λ σ. AllEnded self.now.job self.now.dones
            → result.now ≡ source_list self.now.job σ link) }
    {
        taken_at(&self.link_queues, link)
    }

    /// What waits in a link, never more than its capacity: behind what was taken, it goes on with the link's
    /// list, also as the source says it. Nothing waits where all sites have ended. Takes no memory.
    pub fn queued(&self, link: LinkNo) -> &[Msg]
        requires { link < length self.now.job.plan.links }
        ensures exact { result.now ≡ queued_of self.now link }
        ensures within { length result.now ≤ self.now.job.plan.capacity }
        ensures follows { IsPrefixOf (taken_of self.now link ++ result.now)
            (list_of_link self.now link) }
        ensures none { AllEnded self.now.job self.now.dones → result.now ≡ [] }
        ensures source { InEachSource self.now.job (WaitsNext self.now link result.now) }
    {
        queued_at(&self.link_queues, link)
    }

    /// Without a fault all sites have ended or some turn moves, at any capacity and after any turns.
    pub fn never_stuck(&self)
        ensures { IsUnstuck self.now.job self.now.dones }
    {
        let _ = self.link_queues.len();
    }

    /// Where no turn moves any more, every schedule that goes on until none does ends in this world, faults
    /// or not.
    pub fn same_end(&self)
        ensures { IsOnlyEnd self.now.job self.now.dones }
    {
        let _ = self.link_queues.len();
    }

    /// After any turns each link is within its list, in the source's words, and where all sites have ended
    /// its list was taken whole and nothing breaks.
    pub fn faithful(&self)
        ensures { IsFaithful self.now.job self.now.dones }
    {
        let _ = self.link_queues.len();
    }

    /// A site of the world as it stands. Takes no memory.
    pub fn site(&self, site: u8) -> &Site
        requires { site < length self.now.dones }
        ensures { result.now ≡ record {
          job = self.now.job;
          site = site;
          done = done self.now.dones
              site;
        } }
    {
        site_in(&self.sites, site as usize)
    }
}

fn site_in(sites: &Vec<Site>, s: usize) -> &Site
    requires { s < length sites.now.items }
    ensures { slice_get sites.now.items s ≡ Some result.now }
{
    &sites[s]
}

fn taken_at(link_queues: &Vec<LinkQueue>, l: usize) -> &[Msg]
    requires within { l < length link_queues.now.items }
    requires order { ForSome (slice_get link_queues.now.items l) (λ x. x.taken ≤ length x.put.items) }
    ensures { ForSome (slice_get link_queues.now.items l) (λ x. result.now ≡ take x.taken x.put.items) }
{
    link_queues[l].taken()
}

fn queued_at(link_queues: &Vec<LinkQueue>, l: usize) -> &[Msg]
    requires within { l < length link_queues.now.items }
    requires order { ForSome (slice_get link_queues.now.items l) (λ x. x.taken ≤ length x.put.items) }
    ensures { ForSome (slice_get link_queues.now.items l) (λ x. result.now ≡ drop x.taken x.put.items) }
{
    link_queues[l].queued()
}

/// Empty queues with room for all messages of a run.
fn new_link_queues(alloc: Global, links: usize, room: u32) -> Result<Vec<LinkQueue>, AllocError>
    ensures len { IfOk result (λ x. length x.items ≡ links) }
    ensures each { IfOk result (λ x. (l : ℕ) → ForSome (slice_get x.items l)
        (λ y. IsNewLinkQueue room y)) }
{
    let mut link_queues = Vec::with_capacity(alloc, links)?;
    for _ in 0..links {
        let put = Vec::with_capacity(alloc, room as usize + 1)?;
        link_queues.push_reserved(LinkQueue { put, taken: 0 });
    }
    Ok(link_queues)
}

pub(crate) fn instants_of(sites: &Vec<Site>) -> u32
    requires { 0 < length sites.now.items }
    ensures instants { ForSome (slice_get sites.now.items 0) (λ v. result ≡ v.job.inputs.instants) }
    ensures job { (v : SiteView) → slice_get sites.now.items 0 ≡ Some v → IsJob v.job }
{
    sites[0].instants()
}

fn output_in(sites: &Vec<Site>, s: usize, k: usize) -> &[Status]
    requires { s < length sites.now.items }
    ensures { ForSome (slice_get sites.now.items s) (λ v. IsOutput v.job v.site v.done k
        result.now) }
{
    sites[s].outputs(k)
}

fn has_ended(sites: &Vec<Site>, s: usize) -> bool
    requires { s < length sites.now.items }
    ensures only { (v : SiteView) → slice_get sites.now.items s ≡ Some v → result ≡ true → IsDone v }
    ensures all { (v : SiteView) → slice_get sites.now.items s ≡ Some v → IsDone v → result ≡ true }
{
    match next_of(sites, s) {
        Next::Ended => true,
        Next::Faulted => false,
        Next::Local => false,
        Next::Take(_) => false,
        Next::Put(_, _) => false,
    }
}

fn all_ended(sites: &Vec<Site>) -> bool
    ensures only { result ≡ true → (s : ℕ) → ForSome (slice_get sites.now.items s) (λ v. IsDone v) }
    ensures all { ((s : ℕ) → ForSome (slice_get sites.now.items s) (λ v. IsDone v))
        → result ≡ true }
{
    for s in 0..sites.len() {
        if !has_ended(sites, s) {
            return false;
        }
    }
    true
}

/// The statuses of output k that one of the sites reports.
fn outputs_in(sites: &Vec<Site>, k: usize) -> &[Status]
    ensures { IsReportedAtSome sites.now.items k result.now }
{
    for s in 0..sites.len() {
        let reported = output_in(sites, s, k);
        if reported.len() > 0 {
            return reported;
        }
    }
    &[]
}

impl World {
    /// Output k so far: a prefix of its statuses before its first broken one, also as the source says it, as
    /// many as its site has passed; the whole output where all sites have ended; empty where there is no
    /// output k. Takes no memory.
    pub fn outputs(&self, k: usize) -> &[Status]
        ensures collected { IsCollected self.now.job self.now.dones k result.now }
        ensures beyond { slice_get (outputs_of self.now.job.plan) k ≡ None → result.now ≡ [] }
        ensures source { InEachSource self.now.job
            (λ σ. IsCollectedOf self.now.job self.now.dones σ k result.now) }
    {
        outputs_in(&self.sites, k)
    }

    /// Whether all sites have ended; then no flow breaks. Takes no memory.
    pub fn ended(&self) -> bool
        ensures only { result ≡ true → AllEnded self.now.job self.now.dones }
        ensures all { AllEnded self.now.job self.now.dones → result ≡ true }
        ensures sound { result ≡ true → NoFault self.now.job }
        ensures source { InEachSource self.now.job (λ σ. result ≡ true
            → NoneBreaks self.now.job σ) }
    {
        all_ended(&self.sites)
    }

    /// A world of new sites. It makes all growths of the run: each link has room for all its messages. The
    /// world isn't handed the inputs.
    pub fn new(alloc: Global, plan: &Plan, sites: Vec<Site>) -> Result<World, AllocError>
        requires { IsNewWorld plan.now sites.items }
        ensures job { IfOk result (λ x. ForSome (slice_get sites.items 0) (λ v. x.job ≡ v.job)) }
        ensures dones { IfOk result (λ x. x.dones ≡ new_world (system_of x.job)) }
    {
        let instants = instants_of(&sites);
        let link_queues = new_link_queues(alloc, plan.links().len(), instants)?;
        let first = Snapshot::of(&sites[0]);
        Ok(World {
            sites,
            link_queues,
            capacity: plan.capacity() as usize,
            first,
        })
    }
}

/// The world of new sites after the turns of a schedule, in order: a turn for each number, of the site of
/// that number.
pub fn replay(
    alloc: Global,
    plan: &Plan,
    sites: Vec<Site>,
    schedule: &[u8],
) -> Result<World, AllocError>
    requires { IsNewWorld plan.now sites.items }
    ensures job { IfOk result (λ x. ForSome (slice_get sites.items 0) (λ v. x.job ≡ v.job)) }
    ensures dones { IfOk result (λ x. x.dones ≡ reached (system_of x.job) schedule.now) }
    ensures unstuck { IfOk result (λ x. IsUnstuck x.job x.dones) }
    ensures same_end { IfOk result (λ x. IsOnlyEnd x.job x.dones) }
    ensures faithful { IfOk result (λ x. IsFaithful x.job x.dones) }
    ensures reach { IfOk result (λ x. IsWithinReach x.job x.dones) }
    ensures whole { IfOk result (λ x. NoFault x.job → AreWholeScripts x.job) }
    ensures moves { IfOk result (λ x. IsMoveCount x.job x.dones (moved_turns (system_of x.job)
        schedule.now)) }
{
    let mut world = World::new(alloc, plan, sites)?;
    for site in schedule {
        let _ = world.turn(*site);
    }
    world.never_stuck();
    world.same_end();
    world.faithful();
    world.within_reach();
    world.whole_scripts();
    world.move_count();
    Ok(world)
}

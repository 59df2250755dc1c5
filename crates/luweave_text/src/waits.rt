//! Why the sites of a world stand still that are open, or what they can do.

ghost use Rattle.std.specs.Prelude.{◌≡◌, ◌++◌, ◌<◌, ℕ, List, Option, Some, IfOk, length, slice_get, string_bytes};
ghost use Rattle.luworld.specs.declared.turn.Turn.{Turn};
ghost use Rattle.luworld.specs.Needs.{sites_of};
ghost use Rattle.luworld.specs.Systems.{Item, done, next_item, turn};
ghost use Rattle.luworld.specs.Jobs.{JobView, script, streams_of, system_of};
ghost use Rattle.lusite.specs.Machine.{IsAtInstant, IsNext};
ghost use Rattle.luweave_text.specs.WorldText.{Adds};
ghost use Rattle.luweave_text.specs.Waits.{AreStandLines, IsStandLine, from_text, instant_text, inward, move_text, outward, stand_line, stand_text, to_text, wait_cell, wait_text};

use crate::text::site_name;
use crate::tracing::flow_name;
use luplace::Plan;
use luweave::{LinkNo, Next, World, goes_on};
use std::alloc::{AllocError, Global};

/// Adds the site that a link leads to.
fn put_to(text: &mut String, plan: &Plan, link: LinkNo) -> Result<(), AllocError>
    ensures { Adds result text.old text.new (to_text plan.now (slice_get plan.now.links link)) }
{
    match plan.links().get(link) {
        Some(found) => write!(text, " to {}", site_name(plan.sites(), found.to)),
        None => Ok(()),
    }
}

/// Adds the site that a link comes from.
fn put_from(text: &mut String, plan: &Plan, link: LinkNo) -> Result<(), AllocError>
    ensures { Adds result text.old text.new (from_text plan.now (slice_get plan.now.links link)) }
{
    match plan.links().get(link) {
        Some(found) => write!(text, " from {}", site_name(plan.sites(), found.from)),
        None => Ok(()),
    }
}

/// Adds the flow that a link carries, and the site that it leads to.
fn put_outward(text: &mut String, plan: &Plan, link: LinkNo) -> Result<(), AllocError>
    ensures { Adds result text.old text.new (outward plan.now link) }
{
    text.push_str(flow_name(plan, link))?;
    put_to(text, plan, link)
}

/// Adds the flow that a link carries, and the site that it comes from.
fn put_inward(text: &mut String, plan: &Plan, link: LinkNo) -> Result<(), AllocError>
    ensures { Adds result text.old text.new (inward plan.now link) }
{
    text.push_str(flow_name(plan, link))?;
    put_from(text, plan, link)
}

/// Adds what a site waits for that can't do this next.
pub(crate) fn put_wait(text: &mut String, plan: &Plan, next: Next) -> Result<(), AllocError>
    ensures { (job : JobView) (s n : ℕ) (item : Item) → IsNext job s n next
        → slice_get (script job (streams_of job) s) n ≡ Some item
        → Adds result text.old text.new (wait_text plan.now item) }
{
    match next {
        Next::Put(link, _) => {
            text.push_str("waits for room in ")?;
            put_outward(text, plan, link)
        }
        Next::Take(link) => {
            text.push_str("waits for a message of ")?;
            put_inward(text, plan, link)
        }
        Next::Local => Ok(()),
        Next::Ended => Ok(()),
        Next::Faulted => Ok(()),
    }
}

/// The same in few words, for a column of a chart.
pub(crate) fn put_wait_cell(text: &mut String, plan: &Plan, next: Next) -> Result<(), AllocError>
    ensures { (job : JobView) (s n : ℕ) (item : Item) → IsNext job s n next
        → slice_get (script job (streams_of job) s) n ≡ Some item
        → Adds result text.old text.new (wait_cell plan.now item) }
{
    match next {
        Next::Put(link, _) => write!(text, "waits to put {}", flow_name(plan, link)),
        Next::Take(link) => write!(text, "waits to take {}", flow_name(plan, link)),
        Next::Local => Ok(()),
        Next::Ended => Ok(()),
        Next::Faulted => Ok(()),
    }
}

/// Adds what a site does next that can do it.
fn put_move(text: &mut String, plan: &Plan, next: Next) -> Result<(), AllocError>
    ensures { (job : JobView) (s n : ℕ) (item : Item) → IsNext job s n next
        → slice_get (script job (streams_of job) s) n ≡ Some item
        → Adds result text.old text.new (move_text plan.now item) }
{
    match next {
        Next::Local => text.push_str("can move: computes"),
        Next::Put(link, _) => {
            text.push_str("can move: puts ")?;
            put_outward(text, plan, link)
        }
        Next::Take(link) => {
            text.push_str("can move: takes ")?;
            put_inward(text, plan, link)
        }
        Next::Ended => Ok(()),
        Next::Faulted => Ok(()),
    }
}

/// Adds what a site that is open waits for, or what it can do.
fn put_stand(
    text: &mut String,
    plan: &Plan,
    world: &World,
    site: u8,
    next: Next,
) -> Result<(), AllocError>
    requires within { site < length world.now.dones }
    requires next { IsNext world.now.job site (done world.now.dones site) next }
    ensures { (item : Item) → next_item (system_of world.now.job) world.now.dones site ≡ Some item
        → Adds result text.old text.new
        (stand_text plan.now item (turn (system_of world.now.job) world.now.dones site)) }
{
    if world.would_move(usize::from(site)) {
        put_move(text, plan, next)
    } else {
        put_wait(text, plan, next)
    }
}

/// Adds at which instant a site stands, of so many.
fn put_instant(text: &mut String, instants: u32, instant: u32) -> Result<(), AllocError>
    ensures { Adds result text.old text.new (instant_text instants instant) }
{
    if instant < instants {
        write!(text, "at instant {instant}")
    } else {
        text.push_str("at the close")
    }
}

/// Adds the line of a site that is open.
fn put_open(
    text: &mut String,
    plan: &Plan,
    world: &World,
    site: u8,
    next: Next,
    instant: u32,
) -> Result<(), AllocError>
    requires plan_is { world.now.job.plan ≡ plan.now }
    requires within { site < length world.now.dones }
    requires next { IsNext world.now.job site (done world.now.dones site) next }
    ensures { (item : Item) → next_item (system_of world.now.job) world.now.dones site ≡ Some item
        → Adds result text.old text.new (stand_line world.now site instant (Some item)) }
{
    text.push_str(site_name(plan.sites(), site))?;
    text.push_str(": open ")?;
    put_instant(text, world.site(site).instants(), instant)?;
    text.push_str(", ")?;
    put_stand(text, plan, world, site, next)?;
    text.push_str("\n")
}

/// Adds the line of a site, where it is open.
fn put_line(text: &mut String, plan: &Plan, world: &World, site: u8) -> Result<(), AllocError>
    requires plan_is { world.now.job.plan ≡ plan.now }
    requires within { site < length world.now.dones }
    ensures { IfOk result (λ _. (line : List ℕ) × IsStandLine world.now site line
        × (string_bytes text.new ≡ string_bytes text.old ++ line)) }
{
    let next = world.next(site);
    let instant = world.site(site).instant();
    if goes_on(next) {
        put_open(text, plan, world, site, next, instant)?;
    }
    Ok(())
}

/// For each site that is open, in their order, a line: at which instant it stands, and what it waits for, or
/// what it can do. Nothing where each site has ended or faulted.
pub fn text_of_stands(alloc: Global, plan: &Plan, world: &World) -> Result<String, AllocError>
    requires plan_is { world.now.job.plan ≡ plan.now }
    requires all_sites { length world.now.dones ≡ sites_of plan.now }
    ensures { IfOk result (λ text. AreStandLines world.now (sites_of plan.now) (string_bytes text)) }
{
    plan.recall_invariant();
    let mut text = String::new(alloc);
    let count = plan.sites().len() as u8;
    for site in 0..count {
        put_line(&mut text, plan, world, site)?;
    }
    Ok(text)
}

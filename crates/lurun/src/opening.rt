//! The ends of a job's links, by sites.

ghost use Rattle.std.specs.Prelude.{◌≡◌, ◌<◌, ◌≤◌, ◌+◌, IfOk, OnOk, [], length, slice_get, Some};
ghost use Rattle.luworld.specs.Needs.{sites_of};
ghost use Rattle.lurun.specs.declared.opening.Ends.{Ends};
ghost use Rattle.lurun.specs.Ends.{sender_at, receiver_at};
ghost use Rattle.lurun.specs.Making.{IsEnds, AreAllEnds, IsSenderAdded, IsReceiverAdded};

use lulink::{LinkNo, Rx, Tx, open_link};
use luplace::{Job, Plan};
use luworld::Link;
use std::alloc::{AllocError, Global};

/// The ends of a site's links so far.
#[derive(Drop)]
pub struct Ends {
    pub txs: Vec<Tx>,
    pub rxs: Vec<Rx>,
}

/// No ends yet, for each site.
fn no_ends(alloc: Global, job: &Job) -> Result<Vec<Ends>, AllocError>
    ensures { IfOk result (λ all. AreAllEnds job.now 0 all.items) }
{
    let count = job.plan().sites().len();
    let mut all = Vec::with_capacity(alloc, count)?;
    for _ in 0..count {
        all.push_reserved(Ends {
            txs: Vec::new(alloc),
            rxs: Vec::new(alloc),
        });
    }
    Ok(all)
}

fn add_sender(all: &mut Vec<Ends>, s: usize, tx: Tx) -> Result<(), AllocError>
    requires { s < length all.old.items }
    ensures { OnOk result ((b : Ends) → slice_get all.old.items s ≡ Some b
        → IsSenderAdded all.old.items s b tx all.new.items) }
{
    let ends = &mut all[s];
    ends.txs.push(tx)?;
    Ok(())
}

fn add_receiver(all: &mut Vec<Ends>, s: usize, rx: Rx) -> Result<(), AllocError>
    requires { s < length all.old.items }
    ensures { OnOk result ((b : Ends) → slice_get all.old.items s ≡ Some b
        → IsReceiverAdded all.old.items s b rx all.new.items) }
{
    let ends = &mut all[s];
    ends.rxs.push(rx)?;
    Ok(())
}

fn link_at(plan: &Plan, l: LinkNo) -> &Link
    requires { l < length plan.now.links }
    ensures { slice_get plan.now.links l ≡ Some result.now }
{
    &plan.links()[l]
}

/// The site that sends a link.
fn sender_of(job: &Job, l: LinkNo) -> usize
    requires { l < length job.now.plan.links }
    ensures is { result ≡ sender_at job.now.plan l }
    ensures inside { result < sites_of job.now.plan }
{
    let plan = job.plan();
    let link = link_at(plan, l);
    usize::from(link.from)
}

/// The site that takes a link.
fn receiver_of(job: &Job, l: LinkNo) -> usize
    requires { l < length job.now.plan.links }
    ensures is { result ≡ receiver_at job.now.plan l }
    ensures inside { result < sites_of job.now.plan }
{
    let plan = job.plan();
    let link = link_at(plan, l);
    usize::from(link.to)
}

/// Opens link l, and adds its ends.
fn add_link(alloc: Global, job: &Job, all: &mut Vec<Ends>, l: LinkNo) -> Result<(), AllocError>
    requires within { l < length job.now.plan.links }
    requires room { 1 ≤ job.now.plan.capacity }
    requires so_far { AreAllEnds job.now l all.old.items }
    ensures { OnOk result (AreAllEnds job.now (l + 1) all.new.items) }
{
    let from = sender_of(job, l);
    let to = receiver_of(job, l);
    let Ok((tx, rx)) = open_link(alloc, job, l, job.plan().capacity()) else {
        return Err(AllocError);
    };
    add_sender(all, from, tx)?;
    add_receiver(all, to, rx)?;
    Ok(())
}

/// The ends of all links, with the plan's capacity, by site.
pub fn ends_of(alloc: Global, job: &Job) -> Result<Vec<Ends>, AllocError>
    ensures { IfOk result (λ all. AreAllEnds job.now (length job.now.plan.links) all.items) }
{
    let mut all = no_ends(alloc, job)?;
    for l in 0..job.plan().links().len() {
        add_link(alloc, job, &mut all, l)?;
    }
    Ok(all)
}

//! What a site offers next, and whether the link of it lets the site go on.
#![tactic(auto, using(std::proofs::lemmas::Grind::elements))]

ghost use Rattle.std.specs.Prelude.{◌≡◌, ◌<◌, ◌≤◌, length, slice_get};
ghost use Rattle.std.specs.Option.{ForSome};
ghost use Rattle.lusite.specs.Machine.{IsNext};
ghost use Rattle.luweave.specs.Worlds.{room_in, some_in};

use crate::link_queue::LinkQueue;
use lusite::{Next, Site};

/// What a site offers next.
#[inline(always)]
pub fn next_of(sites: &Vec<Site>, s: usize) -> Next
    requires { s < length sites.now.items }
    ensures { ForSome (slice_get sites.now.items s) (λ v. IsNext v.job v.site v.done result) }
{
    sites[s].next()
}

/// Whether the queue has room.
pub fn has_room(link_queues: &Vec<LinkQueue>, l: usize, capacity: usize) -> bool
    requires lens { ForSome (slice_get link_queues.now.items l) (λ x. x.taken ≤ length x.put.items) }
    ensures { result ≡ room_in link_queues.now.items l capacity }
{
    if l < link_queues.len() {
        let link_queue = &link_queues[l];
        link_queue.put.len() - link_queue.taken < capacity
    } else {
        false
    }
}

/// Whether a message waits.
pub fn has_some(link_queues: &Vec<LinkQueue>, l: usize) -> bool
    ensures { result ≡ some_in link_queues.now.items l }
{
    if l < link_queues.len() {
        let link_queue = &link_queues[l];
        link_queue.taken < link_queue.put.len()
    } else {
        false
    }
}

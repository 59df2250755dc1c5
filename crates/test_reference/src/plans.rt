//! What a plan says of a link or a flow.

ghost use Rattle.std.specs.Prelude.{◌≡◌, slice_get};
ghost use Rattle.luworld.specs.Jobs.{carried, receiver_of};

use luplace::Plan;
use luworld::Link;

pub fn link_at(links: &[Link], link: usize) -> Option<Link>
    ensures { result ≡ slice_get links.now link }
{
    links.get(link).copied()
}

/// The flow that a link carries.
pub fn carried(plan: &Plan, link: usize) -> usize
    ensures { result ≡ carried plan.now link }
{
    match link_at(plan.links(), link) {
        Some(found) => found.flow,
        None => 0,
    }
}

/// The site that takes from a link.
pub fn receiver_of(plan: &Plan, link: usize) -> u8
    ensures { result ≡ receiver_of plan.now link }
{
    match link_at(plan.links(), link) {
        Some(found) => found.to,
        None => 0,
    }
}

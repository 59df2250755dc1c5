//! How many workers are likely to be quickest.

ghost use Rattle.std.specs.Prelude.{◌≡◌, ◌<◌, ◌≤◌};
ghost use Rattle.std.specs.List.{range_with_len, list_all};
ghost use Rattle.luworld.specs.Needs.{sites_of};
ghost use Rattle.luplace.specs.Crews.{are_small, is_small, quickest_crew};

use crate::Plan;

/// The most flows of a site that take less time for an instant than a thread takes to wait for another one.
const FEW_FLOWS: usize = 40;

/// Whether a site has few flows.
fn is_small(plan: &Plan, site: u8) -> bool
    ensures { result ≡ is_small plan.now site }
{
    plan.flow_count(site) <= FEW_FLOWS
}

/// Whether each site has few flows.
fn are_small(plan: &Plan) -> bool
    ensures { result ≡ are_small plan.now }
{
    plan.recall_invariant();
    let count = plan.sites().len() as u8;
    (0..count).all(|site| is_small(plan, site))
}

/// How many workers are likely to be quickest for a plan whose sites go by lists: one for all where each is
/// small, else one for each.
pub fn quickest_crew(plan: &Plan) -> u8
    ensures is { result ≡ quickest_crew plan.now }
    ensures some { 0 < result }
{
    plan.recall_invariant();
    if are_small(plan) {
        return 1;
    }
    plan.sites().len() as u8
}

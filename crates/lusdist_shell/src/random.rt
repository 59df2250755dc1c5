//! Random turns, in place of a schedule.

ghost use Rattle.std.specs.Prelude.{◌≡◌, ◌<◌, IfOk, All};
ghost use Rattle.lusdist_shell.specs.RandomTurns.{next_state, site_at, random_turns};

use std::alloc::{AllocError, Global};

/// The state that follows a state.
fn next_state(state: u32) -> u32
    ensures { result ≡ next_state state }
{
    ((u64::from(state) * 1_103_515_245 + 12_345) % 2_147_483_648) as u32
}

/// The site that a state gives a turn.
fn site_at(sites: u8, state: u32) -> u8
    requires { 0 < sites }
    ensures turn { result ≡ site_at sites state }
    ensures below { result < sites }
{
    (state / 65_536 % u32::from(sites)) as u8
}

/// So many random turns of so many sites, from a seed. It makes one growth, of a byte for each turn.
pub fn random_turns(alloc: Global, seed: u32, sites: u8, count: u32) -> Result<Vec<u8>, AllocError>
    requires { 0 < sites }
    ensures turns { IfOk result (λ turns. turns.items ≡ random_turns seed sites count) }
    ensures below { IfOk result (λ turns. All (λ site. site < sites) turns.items) }
{
    let mut turns = Vec::with_capacity(alloc, count as usize)?;
    let mut state = seed;
    for _ in 0..count {
        state = next_state(state);
        turns.push_reserved(site_at(sites, state));
    }
    Ok(turns)
}

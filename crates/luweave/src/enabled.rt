//! Which sites may move.
#![tactic(auto, using(std::proofs::lemmas::Grind::elements))]

ghost use Rattle.std.specs.Prelude.{◌≡◌, ◌≢◌, ◌↔◌, ℕ, ◌<◌, length, slice_get, true, Some, None};
ghost use Rattle.std.specs.Option.{ForSome};
ghost use Rattle.luworld.specs.declared.turn.Turn.{Turn};
ghost use Rattle.luworld.specs.Systems.{turn, NoTurnMoves};
ghost use Rattle.luworld.specs.Jobs.{system_of, NoFault};
ghost use Rattle.luworld.specs.WorldViews.{AllEnded};

use crate::offers::{has_room, has_some, next_of};
use crate::world::World;
use lusite::{Next, Site};

/// The number of a site.
fn number_of(sites: &Vec<Site>, s: usize) -> u8
    requires { s < length sites.now.items }
    ensures { ForSome (slice_get sites.now.items s) (λ v. result ≡ v.site) }
{
    sites[s].site()
}

impl World {
    /// Whether a turn of the site would move. Takes no memory.
    pub fn would_move(&self, s: usize) -> bool
        requires { s < length self.now.dones }
        ensures { (result ≡ true) ↔ (turn (system_of self.now.job) self.now.dones s ≡ Turn.Moved) }
    {
        match next_of(&self.sites, s) {
            Next::Local => true,
            Next::Put(l, _) => has_room(&self.link_queues, l, self.capacity),
            Next::Take(l) => has_some(&self.link_queues, l),
            Next::Ended => false,
            Next::Faulted => false,
        }
    }

    /// The least site whose turn would move, and none where no turn moves any more: then all sites have
    /// ended, or some flow faults. Changes nothing, and takes no memory.
    pub fn enabled(&self) -> Option<u8>
        ensures moves { (s : ℕ) → result ≡ Some s → turn (system_of self.now.job) self.now.dones s
            ≡ Turn.Moved }
        ensures least { (s r : ℕ) → result ≡ Some s → r < s → turn (system_of self.now.job)
            self.now.dones r ≢ Turn.Moved }
        ensures none { result ≡ None → NoTurnMoves (system_of self.now.job) self.now.dones }
        ensures unstuck { result ≡ None → NoFault self.now.job → AllEnded self.now.job
            self.now.dones }
    {
        for s in 0..self.sites.len() {
            if self.would_move(s) {
                return Some(number_of(&self.sites, s));
            }
        }
        None
    }
}

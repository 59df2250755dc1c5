//! How much of a run is left.

ghost use Rattle.std.specs.Prelude.{◌≡◌, ◌↔◌, ℕ, ◌<◌, ◌≤◌, ◌*◌, length, slice_get};
ghost use Rattle.std.specs.Option.{ForSome};
ghost use Rattle.luworld.specs.declared.turn.Turn.{Turn};
ghost use Rattle.luworld.specs.Systems.{turn, step};
ghost use Rattle.luworld.specs.Outline.{left_after};
ghost use Rattle.luworld.specs.Jobs.{IsJobView, NoFault, outline, streams_of, system_of};
ghost use Rattle.luworld.specs.WorldViews.{AllEnded};
ghost use Rattle.lusite.specs.Widths.{most_left};
ghost use Rattle.luweave.specs.Worlds.{left_of, undone};

use crate::world::World;
use lusite::Site;

/// The items left of a site.
fn left_at(sites: &Vec<Site>, s: usize) -> u64
    requires { s < length sites.now.items }
    ensures left { ForSome (slice_get sites.now.items s) (λ v. result
        ≡ left_after (outline v.job (streams_of v.job)) v.site v.done) }
    ensures few { result ≤ most_left }
    ensures run { ForSome (slice_get sites.now.items s) (λ v. IsJobView v.job) }
{
    sites[s].left()
}

impl World {
    /// How many items the sites would still do if every flow not yet passed were present at each instant,
    /// those of a site that has faulted left out. It is never less than the items still to be done, each turn
    /// that moves lowers it by one or more, and without a fault it is 0 exactly where all sites have ended.
    /// At most 4,295,037,127,032,832. Looks at each flow a few times for each site, however many instants
    /// there are. Takes no memory.
    pub fn left(&self) -> u64
        ensures left { result ≡ left_of self.now.job self.now.dones }
        ensures enough { undone self.now.job self.now.dones ≤ result }
        ensures few { result ≤ 16 * most_left }
        ensures falls { (s : ℕ) → turn (system_of self.now.job) self.now.dones s ≡ Turn.Moved
            → left_of self.now.job (step (system_of self.now.job) self.now.dones s) < result }
        ensures ended { NoFault self.now.job → (result ≡ 0) ↔ AllEnded self.now.job
            self.now.dones }
    {
        let mut total = 0;
        for s in 0..self.sites.len() {
            total += left_at(&self.sites, s);
        }
        total
    }
}

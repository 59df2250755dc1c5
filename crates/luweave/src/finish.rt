//! Turns until none moves.

ghost use Rattle.std.specs.Prelude.{◌≡◌, ℕ, ◌<◌};
ghost use Rattle.luworld.specs.declared.turn.Turn.{Turn};
ghost use Rattle.luworld.specs.Systems.{turn, step, NoTurnMoves};
ghost use Rattle.luworld.specs.Jobs.{system_of, NoFault};
ghost use Rattle.luworld.specs.WorldViews.{AllEnded};
ghost use Rattle.luweave.specs.Worlds.{left_of, IsLater, IsOnlyEnd};
ghost use Rattle.luweave.specs.Headline.{IsFaithful};

use crate::world::World;

impl World {
    /// A turn that moves leaves fewer items.
    fn falls(&self)
        ensures { (s : ℕ) → turn (system_of self.now.job) self.now.dones s ≡ Turn.Moved
            → left_of self.now.job (step (system_of self.now.job) self.now.dones s)
            < left_of self.now.job self.now.dones }
    {
        let _ = self.link_queues.len();
    }

    /// Gives the turn of `enabled` until no turn moves any more. Then all sites have ended, or some flow
    /// faults; and the world is the one in which every schedule ends that goes on until none does. Looks at
    /// each site at most once for each turn that moves, which is an item done. Takes no memory.
    pub fn finish(&mut self)
        ensures job { self.new.job ≡ self.old.job }
        ensures turns { IsLater self.old.job self.old.dones self.new.dones }
        ensures quiet { NoTurnMoves (system_of self.new.job) self.new.dones }
        ensures unstuck { NoFault self.new.job → AllEnded self.new.job self.new.dones }
        ensures same_end { IsOnlyEnd self.new.job self.new.dones }
        ensures faithful { IsFaithful self.new.job self.new.dones }
    {
        while let Some(site) = self.enabled() {
            self.falls();
            let _ = self.turn(site);
        }
        self.same_end();
        self.faithful();
    }
}

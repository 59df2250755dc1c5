//! What holds of a world, whatever the schedule.

ghost use Rattle.luworld.specs.Systems.{IsWired};
ghost use Rattle.luworld.specs.Jobs.{NoFault, system_of};
ghost use Rattle.luweave.specs.Schedules.{IsWithinReach, AreWholeScripts, EachMoveCount};

use crate::world::World;
use luworld::laws::{item_count_law, moves_law, whole_law};

impl World {
    /// Each link is put by one site and taken by one. The items done are among the reachable ones, and no
    /// turn moves exactly where they are all of them, faults or not.
    pub fn within_reach(&self)
        ensures wired { IsWired (system_of self.now.job) }
        ensures reach { IsWithinReach self.now.job self.now.dones }
    {
        let _ = self.link_queues.len();
    }

    /// Without a fault each site's script is whole, all its items are reachable, and there are as many items
    /// as statuses and messages ask for.
    pub fn whole_scripts(&self)
        ensures { NoFault self.now.job → AreWholeScripts self.now.job }
    {
        let _ = self.link_queues.len();
        whole_law();
        item_count_law();
    }

    /// As many turns of a schedule move as items are done, never more than there are, and without a fault all
    /// sites have ended exactly where that many have moved.
    pub fn move_count(&self)
        ensures { EachMoveCount self.now.job }
    {
        let _ = self.link_queues.len();
        moves_law();
        item_count_law();
    }
}

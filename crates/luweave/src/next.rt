//! What the sites of a world do next.

ghost use Rattle.std.specs.Prelude.{◌≡◌, ℕ, is_some, slice_get};
ghost use Rattle.luworld.specs.Jobs.{JobView, script, streams_of};
ghost use Rattle.luworld.specs.Systems.{done};
ghost use Rattle.lusite.specs.Machine.{IsNext};

use crate::offers::next_of;
use crate::world::World;
use lusite::Next;

/// Whether a site that does this next does anything more.
pub fn goes_on(next: Next) -> bool
    ensures { (job : JobView) (s n : ℕ) → IsNext job s n next
        → result ≡ is_some (slice_get (script job (streams_of job) s) n) }
{
    match next {
        Next::Local => true,
        Next::Put(_, _) => true,
        Next::Take(_) => true,
        Next::Ended => false,
        Next::Faulted => false,
    }
}

impl World {
    /// What a site does next: nothing more where it has ended or faulted, or where the number is no site's.
    /// Takes no memory.
    pub fn next(&self, site: u8) -> Next
        ensures { IsNext self.now.job site (done self.now.dones site) result }
    {
        let s = site as usize;
        if s >= self.sites.len() {
            return Next::Ended;
        }
        next_of(&self.sites, s)
    }
}

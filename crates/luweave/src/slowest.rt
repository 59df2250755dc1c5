//! How far the slowest site of a world has come.

ghost use Rattle.std.specs.Prelude.{◌≡◌, ◌<◌, length, slice_get};
ghost use Rattle.std.specs.Option.{ForSome};
ghost use Rattle.luweave.specs.Slowest.{instant_at, slowest};

use crate::next::goes_on;
use crate::offers::next_of;
use crate::world::{World, instants_of};
use lusite::Site;

/// The instant at which a site stands that goes on; the number of instants of one that does nothing more.
fn instant_of(sites: &Vec<Site>, s: usize) -> u32
    requires { s < length sites.now.items }
    ensures { ForSome (slice_get sites.now.items s) (λ v. result ≡ instant_at v.job v.site v.done) }
{
    if goes_on(next_of(sites, s)) {
        sites[s].instant()
    } else {
        sites[s].instants()
    }
}

impl World {
    /// The instant, counted from 0, at which the slowest site stands of those that go on; where none goes on,
    /// the number of instants. Takes no memory.
    pub fn slowest(&self) -> u32
        ensures { result ≡ slowest self.now }
    {
        let mut least = instants_of(&self.sites);
        for s in 0..self.sites.len() {
            least = least.min(instant_of(&self.sites, s));
        }
        least
    }
}

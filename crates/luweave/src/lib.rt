//! The interleaving core: all sites of a job in one thread, by turns.
//!
//! - [`World`]: the sites and the links between them; [`Turn`]: what a turn does.
//! - [`new_sites`]: the sites of a job, before any turn; [`replay`]: a new world of them after the turns of a
//!   schedule.
#![tactic(auto)]

mod enabled;
mod finish;
mod laws;
mod left;
mod link_queue;
mod next;
mod offers;
mod sites;
mod slowest;
mod world;

pub use lusite::{LinkNo, Next, Site};
pub use luworld::Turn;
pub use next::goes_on;
pub use sites::new_sites;
pub use world::{World, replay};

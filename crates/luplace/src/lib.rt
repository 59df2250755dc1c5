//! Placements, plans and jobs, and in which way a run of a plan goes.
//!
//! - [`Place`], [`read_place`], [`PlaceError`]: what a placement file says, and why a placement is refused.
//! - [`Plan`]: where flows stand, what each site needs, and the links that follow.
//! - [`Job`], [`SiteInputs`]: one run, and what of it a site is handed.
//! - [`way_of`], [`Way`]: whether a run of a plan goes by rows, and why it doesn't.
//! - [`least_nils`], [`class_in`]: which flows may be nil where their clock is first true: the least classes
//!   of initialisation.
//! - [`quickest_crew`]: how many workers are likely to be quickest by lists.
//! - [`laws`]: worked placements; a plan has one way.
#![tactic(auto)]

mod assembly;
mod crew;
mod job;
pub mod laws;
mod layers;
mod linking;
mod lookup;
mod marking;
mod named;
mod nils;
mod placing;
mod plan;
mod sought;
mod way;

pub use crew::quickest_crew;
pub use job::{Job, SiteInputs};
pub use luplace_file::{Place, PlaceError, read_place};
pub use luworld::Link;
pub use nils::{class_in, least_nils};
pub use plan::Plan;
pub use way::{Way, way_of};

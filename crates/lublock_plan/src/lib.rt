//! In which order a block's flows are worked out, and a pass through each cycle. Whoever uses it looks at
//! what it gives, so its calls promise nothing but that they end.
//!
//! - [`Plan`], [`Step`]: the order of a program's flows; [`site_plan`], [`SitePlan`], [`SiteStep`]: that of
//!   what one site does.
//! - [`needed`], [`needed_of`]: the main variables that are put out.
//! - [`Cycle`], [`CycleClock`], [`CyclePre`], [`Twin`]: a cycle of flows, and what its `pre`s give.
#![tactic(auto)]

mod brief;
mod cycle;
mod cycle_clock;
mod cycle_code;
mod lines;
mod needs;
mod pass;
mod plan;
mod reads;
mod search;
mod site;

pub use cycle::Cycle;
pub use cycle_clock::{CycleClock, CyclePre, Twin};
pub use needs::{needed, needed_of};
pub use plan::{Plan, Step};
pub use site::{SitePlan, SiteStep, site_plan};

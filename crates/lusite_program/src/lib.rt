//! What of a plan a site runs, and what it holds of its flows.
//!
//! - [`project`], [`SiteProgram`], [`LinkNo`]: what of a plan a site runs.
//! - [`output_names`]: the names of the main outputs.
//! - [`SiteFlow`], [`Part`], [`link_of`]: a flow as the machine of a site has it, and the site's part in it.
//! - [`Held`], [`new_held`]: what a site holds of its flows.
//! - [`note`], [`drawn`]: the logs of a site's outputs.
#![tactic(auto)]

mod carriers;
mod held;
mod logs;
mod program;
mod projecting;

pub use held::{Held, new_held};
pub use logs::{drawn, note};
pub use program::{LinkNo, Part, SiteFlow, SiteProgram, link_of};
pub use projecting::{output_names, project};

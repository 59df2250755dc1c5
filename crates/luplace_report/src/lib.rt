//! The report of a plan, as texts that are stated functions of the plan.
//!
//! - [`report_json`]: the report as JSON on one line; [`report_table`]: as tables for a terminal;
//!   [`report_dot`]: as a graph.
//! - [`report_idle`]: a line for each site at which nothing stands.
//! - [`cause_of`], [`Cause`]: why a link is there.
//! - [`laws`]: each link of a plan has a cause, each edge has both ends, a site's items are counted; worked
//!   reports.
//! - `names`: how variables, sites, types and clocks are named; `way`: how the way of a plan is reported;
//!   `cycles`: sites that feed each other.
//! - `cells`, `aligned`: rows of cells, and tables whose columns are aligned.
#![tactic(auto)]

mod aligned;
mod cause;
mod cells;
mod cycles;
mod dot;
mod idle;
mod json;
pub mod laws;
mod names;
mod table;
mod way;

pub use cause::{Cause, cause_of};
pub use dot::report_dot;
pub use idle::report_idle;
pub use json::report_json;
pub use table::report_table;

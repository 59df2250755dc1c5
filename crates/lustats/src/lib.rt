//! What a run counted, gathered while it runs, and printed behind it.
//!
//! - [`RunStats`]: gathers what the ends of all links say, whichever threads serve their sites.
//! - [`Counts`], [`SiteCounts`], [`LinkCounts`]: the plain numbers.
//! - [`stats_text`]: the lines for a person.
#![tactic(auto)]

mod counts;
mod gathering;
mod text;

pub use counts::{Counts, LinkCounts, SiteCounts};
pub use gathering::RunStats;
pub use text::stats_text;

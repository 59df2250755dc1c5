//! The static checks: names and types, then clocks, then initialisation.
//!
//! - [`check`]: whether a program keeps all rules, or a `StatError` that reports a rule that is broken.
//! - [`all_faults`]: all faults of the first stage that has any, in order of place.
//! - [`Checked`]: a program that keeps all rules, with an order of its nodes and the classes of their
//!   variables.
//!
//! The rules are those of `lustat_rules`.
#![tactic(auto)]

mod checked;
mod stages;
mod survey;

pub use checked::Checked;
pub use lustat_rules::StatError;
pub use stages::check;
pub use survey::all_faults;

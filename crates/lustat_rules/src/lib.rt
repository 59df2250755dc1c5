//! The static rules of programs, as definitions over the tree; what a refusal reports; and what the stages of
//! the static checks share: names looked up by tables, one search for the least fault, and one for all.
//!
//! # The rules
//!
//! - `specs/Scope.antt`: what a name means in a node, and which node a call means.
//! - `specs/Naming.antt`: the rules of names, `E10` to `E18` but for the types.
//! - `specs/Parts.antt`: the parts of an expression that speak of enumerations and of clocks.
//! - `specs/Typing.antt`: the types of expressions and whole merges, `E13` and `E19`.
//! - `specs/Clocks.antt`: when an expression fits a clock, and `E20` to `E23`.
//! - `specs/Classes.antt`: initialisation classes, `E30`, and the condition of `current`, `E31`.
//! - `specs/Accepted.antt`: which programs are accepted, and what a refusal says.
//! - `specs/Vectors.antt`: worked programs for the rules; `specs/EnumVectors.antt`: those with enumerations.
//! - [`laws`]: what holds of these definitions.
//!
//! # Refusals
//!
//! - `specs/Reported.antt` and [`StatError`]: what a refusal reports.
//! - `specs/Faults.antt`, [`reported`] and [`lesser`]: the faults of a program, and the one that is reported.
//!
//! # Look-up and the search
//!
//! - [`Scope`]: a node with the tables of its variables.
//! - [`Catalog`]: a program with a scope for each node and tables of the names of its nodes, its types and
//!   enumerations.
//! - [`ClockRef`]: a clock, lent. [`PatternRef`]: its pattern, lent. [`PlacedClock`]: a clock, lent, with the
//!   place of its variable.
//! - [`Stage`]: a stage of the static checks: its tests of types, names, nodes, declarations and equations.
//! - [`least_fault`]: the least fault that a stage finds.
//!
//! What a look-up finds is said by the plain scan of declarations.
//!
//! # All faults
//!
//! All faults that a stage finds, each once, in order of place.
//!
//! - [`Survey`]: a stage that also gives all faults of a type, a name, a node, a declaration and an equation.
//! - [`all_faults`]: all faults of a stage, in order; [`push_faults`]: the same in any order, behind others.
//! - [`in_order`]: faults in order of place, each once.
//! - [`push_fault`], [`push_each`]: the fault of one rule, those of several.
//! - [`least_of`]: of the faults of several rules the one that is reported.
//!
//! What all faults are stands in `specs/AllFaults.antt`, what a row of rules tells of a place in
//! `specs/Told.antt`.
#![tactic(auto)]

mod catalog;
mod clock_ref;
mod error;
pub mod laws;
mod least;
mod order;
mod row;
mod scope;
mod stage;
mod survey;

pub use catalog::Catalog;
pub use clock_ref::{ClockRef, PatternRef, PlacedClock};
pub use error::StatError;
pub use least::{is_reported_before, lesser, reported};
pub use lubase::Places;
pub use order::in_order;
pub use row::{least_of, push_each, push_fault};
pub use scope::Scope;
pub use stage::{Stage, least_fault};
pub use survey::{Survey, all_faults, push_faults};

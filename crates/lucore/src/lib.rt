//! Flattening: from a program that keeps all rules to its flat program.
//!
//! - [`flatten`]: the flat program ([`Flat`]), with its order of ranks.
//! - [`CoreError`]: why there is none.
//!
//! The list is that of `lucore_laws`; what else holds of the result is said in `specs/Result.antt`.
#![tactic(auto)]

mod error;
mod flattening;
mod reading;

pub use error::CoreError;
pub use flattening::flatten;
pub use luflow::Flat;

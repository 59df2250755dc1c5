//! The rules of clocks: which equations and declarations of a program keep them.
//!
//! - [`agrees`]: whether the variables on an equation's left have one clock, which its right side fits.
//! - [`fits`]: whether an expression fits a clock.
//! - [`chain_ends`], [`is_clock`]: whether the variables of declared clocks have the types of their patterns,
//!   in chains that end.
//! - [`names_clocks`]: whether those of the clocks that an expression names have them.
//! - [`is_unclocked`], [`main_is_unclocked`], [`calls_unclocked`]: whether inputs and outputs are on the base
//!   clock.
//! - [`declaration_fault`], [`equation_fault`]: the least fault at a place.
//! - [`clock_fault`]: the least fault of a program. [`all_clock_faults`]: all of them, in order of place.
//! - [`is_visible`]: whether the clocks of the main node's outputs are inputs or outputs.
#![tactic(auto)]

mod agree;
mod anchor;
mod chain;
mod fault;
mod fit;
mod parameter;
mod search;
mod survey;

pub use agree::agrees;
pub use chain::{chain_ends, is_clock, names_clocks};
pub use fault::{declaration_fault, equation_fault};
pub use fit::fits;
pub use parameter::{calls_unclocked, is_unclocked, is_visible, main_is_unclocked};
pub use search::clock_fault;
pub use survey::all_clock_faults;

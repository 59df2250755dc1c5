//! The rules of initialisation, and the condition of `current`: which equations of a node keep them.
//!
//! # Classes
//!
//! - [`is_one`], [`needs_met`]: the class of an expression, and whether what it needs in class 0 is there.
//! - [`lefts_are_known`], [`all_lefts_known`]: whether what equations define is declared.
//! - [`least_classes`]: the least classes of a node's variables.
//! - [`clocks_named`], [`keeps_classes`]: whether an equation keeps the rules of classes.
//! - [`initialise`], [`Initialised`]: whether a program keeps these rules: the classes of each node, or the
//!   fault that is reported.
//! - [`all_class_faults`]: all faults by these rules, in order of place.
//! - [`laws`]: what the least classes decide.
//!
//! # The condition of `current`
//!
//! A node may use `current` only of variables whose clocks are true at first.
//!
//! - [`Firsts`]: which clocks are true at first, by the form of their equations, and which uses of `current`
//!   that allows.
#![tactic(auto)]

mod begun;
mod class;
mod current;
mod judge;
mod known;
pub mod laws;
mod least;
mod search;
mod survey;

pub use class::{is_one, needs_met};
pub use current::Firsts;
pub use judge::{clocks_named, keeps_classes};
pub use known::{all_lefts_known, lefts_are_known};
pub use least::least_classes;
pub use search::{Initialised, initialise};
pub use survey::all_class_faults;

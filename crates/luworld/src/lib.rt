//! The interleaving core, over definitions alone: plans in the abstract, scripts of sites, worlds, and the
//! laws that hold over every schedule.
//!
//! - [`Turn`]: what one turn of a site does; [`Link`]: a link of a plan.
//! - [`laws`]: the laws, each the contract of a function that does nothing.
//!
//! The definitions stand in `specs/`: `Systems` (items, systems, turns), `Reach` (reachable items), `Outline`
//! (a plan in the abstract, its scripts), `Laws`, `OutlineLaws`; and `Needs`, `Jobs` (a plan of a flat
//! program, its links, one run's scripts and lists), `WorldViews` (what was taken, waits and was reported),
//! `Sites` (one site, and what it leaves), `RunLaws`. `Vectors` and `RunVectors` have worked examples.
#![tactic(auto)]

pub mod laws;
mod link;
mod turn;

pub use link::Link;
pub use turn::Turn;

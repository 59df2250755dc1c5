//! What a program's flows have over time, for people and for viewers of waves: as a chart of text.
//!
//! - [`chronogram`] draws columns as a chart: a row for each flow, a cell for each instant.
//! - [`dump`] writes them as a value change dump, which viewers of waves open.
//! - [`cut`] cuts a table to its first instants, at which a program does what it does at the whole table.
//!
//! A text is a stated function of the columns and their types: `specs/Chronogram.antt` has the chart,
//! `specs/Dump.antt` the dump, `specs/Scopes.antt` its scopes.
//!
//! - `pieces`: pieces of which a text is put together.
//! - `signal`: the flows, by their columns and types, and how much is known of them.
//! - `cell`: the cells of a chart; `layout`: how wide its columns are; `chart`: its rows and strips.
//! - `scopes`: the scopes of a dump, by the dots in the names of flows.
//! - `waves`: the dump, and the parts of which one with other scopes is put together; `cutting`: a table cut
//!   to its first instants.
#![tactic(auto)]

mod cell;
mod chart;
mod cutting;
mod layout;
pub mod pieces;
mod scopes;
pub mod signal;
pub mod waves;

pub use chart::chronogram;
pub use cutting::cut;
pub use waves::dump;

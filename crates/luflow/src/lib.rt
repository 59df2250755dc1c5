//! Flat programs: their flows, what these carry, and what their solution is.
//!
//! - [`Datum`], [`Status`]: what a flow has at an instant.
//! - [`Form`], [`Flow`], [`Clock`]: what a flow is made of; [`Outcome`], [`FaultKind`]: what its value may
//!   be.
//! - [`Flat`], [`Variable`], [`Enum`], [`names_of`], [`name_of`]: a whole flat program, and how its names are
//!   spelled; [`Inputs`]: the table of its inputs, each input's [`Values`]; [`Outputs`]: that of its outputs.
//! - [`Msg`], [`Body`]: what a link carries.
//! - [`laws`]: exactly one solution, what every solution keeps, and worked programs.
//!
//! The definitions stand in `specs/`: `Program`, `Rank`, `Streams`, `Operators`, `Values`, `Solution`,
//! `Faults`, `Sound`, `Messages`, `Types`; worked programs in `Vectors`.
#![tactic(auto)]

mod data;
mod flat;
mod form;
pub mod laws;
mod message;
mod outputs;
mod reads;
mod table;
mod values;
mod variable;

pub use data::{Datum, Status};
pub use flat::Flat;
pub use form::{Clock, FaultKind, Flow, Form, Outcome};
pub use message::{Body, Msg};
pub use outputs::Outputs;
pub use table::Inputs;
pub use values::Values;
pub use variable::{Enum, Role, Variable, name_of, names_of};

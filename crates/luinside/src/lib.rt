//! The instances of called nodes, where their variables stand in the flat program, and the columns of these
//! at a table; and where a fault is: at which place of the flat program, which operator of the text that is,
//! and what is told of it.
//!
//! # Instances
//!
//! - [`instances`]: all instances of a program, the main one first.
//! - [`Instance`]: the calls that lead to an instance, its node, and the place of its first variable.
//! - [`call_at`], [`TextCall`]: the call of a number in a node: its equation, its number there, the name that
//!   it calls.
//! - [`deep_variables`]: the variables of every instance, instance by instance, each with the name of its
//!   path.
//! - [`DeepVariable`]: such a variable, and the place of its flow in the flat program.
//! - [`deep_columns`]: their streams at a table, by name.
//! - [`laws`]: what the columns are in the words of the source.
//!
//! What the list of instances is stands in `specs/Listed.antt`, where a call stands in a text in
//! `specs/Calls.antt`, and what the name of a path is in `specs/Names.antt`.
//!
//! # Faults
//!
//! - [`operator_at`]: the operator of a flow, by the flow's place.
//! - [`FaultSite`]: the instance in which it stands, where in the text of the instance's node, and what it
//!   reads.
//! - [`first_fault`], [`FirstFault`]: the first fault of a program at a table, and its operator.
//! - [`fault_place`], [`FoundFault`], [`Reads`] (of `lueval`): the first fault of a flat program at a table,
//!   by the place of its flow; the places of its operands' flows.
//! - [`told_fault`], [`Telling`]: what is told of a fault that is reported by a main variable, an instant and
//!   a kind: the whole, where it is the first fault; or that it isn't.
//! - [`ToldFault`]: the byte of the operator's sign, and the lines.
//!
//! What is told of the operator of the first fault stands in `specs/First.antt`, what a fault at a place says
//! of the source in `specs/Sites.antt`, and what a part of an expression is in `specs/Parts.antt`; what is
//! told of which fault in `specs/Told.antt`, where an operator stands in a text in `specs/Signs.antt`, and
//! the lines in `specs/Words.antt`.
#![tactic(auto)]

mod columns;
mod first;
pub mod laws;
mod listing;
mod names;
mod passing;
mod place;
mod reads;
mod signs;
mod sites;
mod starts;
mod step;
mod target;
mod texts;
mod told;
mod variables;
mod way;
mod words;

pub use columns::deep_columns;
pub use first::{FirstFault, first_fault};
pub use listing::{Instance, instances};
pub use lueval::{FoundFault, Reads, fault_place};
pub use sites::{FaultSite, operator_at};
pub use texts::{TextCall, call_at};
pub use told::{Telling, ToldFault, told_fault};
pub use variables::{DeepVariable, deep_variables};

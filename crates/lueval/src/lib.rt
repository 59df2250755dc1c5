//! The evaluator of whole programs, and the value of one flow at one instant, on which it stands.
//!
//! - [`whole`], [`Streams`], [`EvalError`]: a program's only solution at a table, or its first fault;
//!   [`whole_outputs`]: its outputs alone, in less memory; [`whole_columns`]: all its main variables by name;
//!   [`whole_flows`]: the streams of chosen flows.
//! - [`fault_place`], [`FoundFault`]: the first fault, by its place, with the data of its operands;
//!   [`Reads`]: the places of these.
//! - All that is public of `lueval_lines` but its code and columns: the data operators, lines and cells.
#![tactic(auto)]

mod evaluator;
mod faults;
mod flows;
mod machine;
mod ranked;

pub use evaluator::{fault_place, whole, whole_columns, whole_flows, whole_outputs};
pub use faults::{FoundFault, Reads};
pub use lueval_lines::{
    Answer, Cell, EvalError, Line, LineClock, Past, Streams, cell_at, cell_of, choice, column_of,
    double, is_absent, is_datum, is_on, line_of, moved_branches, moved_line, newest, single,
    status, taken_outputs, value_with,
};
pub use luflow::{Datum, Inputs, Outputs, Status};

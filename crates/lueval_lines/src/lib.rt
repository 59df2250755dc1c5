//! The flows of a program at one instant: the line that a machine of the distributor runs for a flow, its
//! value, the lines of many flows worked out in order, and the columns of their streams.
//!
//! - [`single`], [`double`], [`choice`]: the data operators and `if`, on data.
//! - [`Past`]: what is kept of a flow from the instants before, as contracts say it.
//! - [`Cell`], [`Answer`], [`Line`]: a status in two words, what a flow's value is in such words, and a flow
//!   laid out for its machine; [`line_of`], [`value_with`], [`is_on`], [`newest`]: how a line is made, its
//!   value, its clock, and what is kept of it. The branches of merges stand in one list beside the lines.
//!   [`moved_line`], [`moved_branches`]: the same in a part of a program, whose flows stand at places of
//!   their own.
//! - [`Code`], [`line_at`]: the lines of a whole program, and one of them; [`operation`]: what a line
//!   computes.
//! - [`OrderedLines`], [`OrderedLine`]: lines in the order in which they are worked out at each instant, with
//!   spans of one clock and quick ways to the commonest values; [`work_all`]: they are worked out; [`Lent`]:
//!   the columns of inputs, lent by a table or a site.
//! - [`Wanted`], [`Notes`], [`note`]: the streams of main variables, column by column, as far as they are
//!   known; [`Streams`]: the same when all are; [`taken_outputs`]: those of the outputs, by name;
//!   [`EvalError`]: why a program has none.
#![tactic(auto)]

mod answers;
mod cell;
mod columns;
mod doubles;
mod error;
mod lent;
mod line;
mod moving;
pub mod operation;
mod operators;
mod ordered;
mod outputs;
mod past;
mod quick;
mod streams;
mod working;

pub use answers::value_with;
pub use cell::{Answer, Cell, cell_at, cell_of, is_absent, is_datum, is_on, newest, status};
pub use columns::{Notes, Wanted, empty_columns, note};
pub use error::EvalError;
pub use lent::{Lent, given};
pub use line::{Code, Line, LineClock, column_of, line_at, line_of};
pub use luflow::{Datum, Inputs, Outputs, Status};
pub use moving::{moved_branches, moved_line};
pub use operators::{choice, double, single};
pub use ordered::{OrderedLine, OrderedLines, fixed_of, ordered_line, row_at, spans_of};
pub use outputs::taken_outputs;
pub use past::Past;
pub use streams::Streams;
pub use working::work_all;
